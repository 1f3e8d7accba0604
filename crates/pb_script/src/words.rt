//! The words of a script's lines: names, types, and what comes after the station's name.
ghost use Rattle.std.specs.Prelude.{◌≡◌, ℕ, ◌∷◌, ◌++◌, List, MatchOption};
ghost use Rattle.pb_script.specs.Script.{IsScriptName};
ghost use Rattle.pb_script.specs.ScriptText.{kind_text, space};

use crate::table::Kind;
use pb_base::{Name, after, cut_at, is_name_byte};

/// The byte between two words.
pub(crate) const SPACE: u8 = b' ';

/// The byte that ends a line.
pub(crate) const LINE_FEED: u8 = b'\n';

/// The most bytes of a name.
const NAME_MAX: usize = 32;

/// What comes after a word with its space, and the station's name with one.
pub(crate) fn after_station<'a>(text: &'a [u8], word: &[u8], station: &[u8]) -> Option<&'a [u8]>
    ensures { MatchOption result ((rest : List ℕ)
        → text.entry.now ≡ word.now ++ (station.now ++ space ∷ rest) → ⊥)
        (λ r. text.entry.now ≡ word.now ++ (station.now ++ space ∷ r.now)) }
{
    let rest = match after(text, word) {
        Some(rest) => rest,
        None => return None,
    };
    let rest = match after(rest, station) {
        Some(rest) => rest,
        None => return None,
    };
    match after(rest, b" ") {
        Some(rest) => Some(rest),
        None => None,
    }
}

// The name of these bytes; none where they are none.
fn name_of(bytes: &[u8]) -> Option<Name>
    ensures { MatchOption result (IsScriptName bytes.now → ⊥)
        (λ name. (name ≡ bytes.now) × IsScriptName name) }
{
    if bytes.is_empty() || bytes.len() > NAME_MAX {
        return None;
    }
    if !bytes.iter().all(|byte| is_name_byte(*byte)) {
        return None;
    }
    Name::new(bytes)
}

/// A name, and what comes after it and its space.
#[derive(Clone, Copy)]
pub(crate) struct Named<'a> {
    pub(crate) name: Name,
    pub(crate) rest: &'a [u8],
}

/// The name that comes first and ends with a space.
pub(crate) fn name_until_space(text: &[u8]) -> Option<Named>
    ensures { MatchOption result ((name rest : List ℕ) → IsScriptName name
        → text.now ≡ name ++ space ∷ rest → ⊥)
        (λ r. IsScriptName r.name × (text.now ≡ r.name ++ space ∷ r.rest.now)) }
{
    let halves = match cut_at(text, SPACE) {
        Some(halves) => halves,
        None => return None,
    };
    match name_of(halves.before) {
        Some(name) => Some(Named {
            name,
            rest: halves.after,
        }),
        None => None,
    }
}

/// A field's type, and what comes after it and its space.
#[derive(Clone, Copy)]
pub(crate) struct Typed<'a> {
    pub(crate) kind: Kind,
    pub(crate) rest: &'a [u8],
}

/// The field's type that comes first and ends with a space.
pub(crate) fn kind_until_space(text: &[u8]) -> Option<Typed>
    ensures { MatchOption result ((kind : Kind) (rest : List ℕ)
        → text.now ≡ kind_text kind ++ space ∷ rest → ⊥)
        (λ r. text.now ≡ kind_text r.kind ++ space ∷ r.rest.now) }
{
    if let Some(rest) = after(text, b"fp2 ") {
        return Some(Typed {
            kind: Kind::Fp2,
            rest,
        });
    }
    match after(text, b"ascii ") {
        Some(rest) => Some(Typed {
            kind: Kind::Ascii,
            rest,
        }),
        None => None,
    }
}
