//! The words of a line, one after another.
ghost use Rattle.std.specs.Prelude.{◌≡◌, ◌↔◌, IsTrue, ℕ, ◌<◌, ◌≤◌, ◌^◌, ◌∷◌, ◌++◌, length, get_or, List, MatchOption, decimal};
ghost use Rattle.pb_base.specs.Words.{IsNameByte, Lacks};

use crate::decimal::parse_decimal;

/// The bytes before a byte, and those after it.
#[derive(Clone, Copy)]
pub struct Halves<'a> {
    pub before: &'a [u8],
    pub after: &'a [u8],
}

/// Cuts at the first such byte; none where there is none.
pub fn cut_at(bytes: &[u8], stop: u8) -> Option<Halves>
    ensures { MatchOption result ((before after : List ℕ) → bytes.now ≡ before ++ stop ∷ after → ⊥)
        (λ c. (bytes.now ≡ c.before.now ++ stop ∷ c.after.now) × Lacks stop c.before.now) }
{
    let place = place_of(bytes, stop);
    if place == bytes.len() {
        return None;
    }
    Some(Halves {
        before: &bytes[..place],
        after: &bytes[place + 1..],
    })
}

// The place of the first such byte; the length where there is none.
fn place_of(bytes: &[u8], stop: u8) -> usize
    ensures within { result ≤ length bytes.now }
    ensures before { (k : ℕ) → k < result → get_or bytes.now k 0 ≡ stop → ⊥ }
    ensures found { result < length bytes.now → get_or bytes.now result 0 ≡ stop }
{
    for (place, byte) in bytes.iter().enumerate() {
        if *byte == stop {
            return place;
        }
    }
    bytes.len()
}

/// What comes after a prefix; none where the text has another.
pub fn after<'a>(text: &'a [u8], prefix: &[u8]) -> Option<&'a [u8]>
    ensures { MatchOption result ((rest : List ℕ) → text.entry.now ≡ prefix.now ++ rest → ⊥)
        (λ r. text.entry.now ≡ prefix.now ++ r.now) }
{
    text.strip_prefix(prefix)
}

/// A number below 2^32, and what comes after it and its end.
#[derive(Clone, Copy)]
pub struct Numbered<'a> {
    pub n: u32,
    pub rest: &'a [u8],
}

/// The number below 2^32 that comes first and ends with this byte, which is no digit; none where no such number comes first.
pub fn number_until(text: &[u8], stop: u8) -> Option<Numbered>
    requires { stop < 48 }
    ensures { MatchOption result ((n : ℕ) (rest : List ℕ) → n < 2 ^ 32
        → text.now ≡ decimal n ++ stop ∷ rest → ⊥)
        (λ r. (r.n < 2 ^ 32) × (text.now ≡ decimal r.n ++ stop ∷ r.rest.now)) }
{
    let halves = match cut_at(text, stop) {
        Some(halves) => halves,
        None => return None,
    };
    match parse_decimal(halves.before) {
        Some(n) => Some(Numbered {
            n,
            rest: halves.after,
        }),
        None => None,
    }
}

/// Whether the byte may stand in a name of a text: a letter of ASCII, a digit, `_` or `-`.
pub fn is_name_byte(byte: u8) -> bool
    ensures { IsTrue result ↔ IsNameByte byte }
{
    byte.is_ascii_alphanumeric() || byte == b'_' || byte == b'-'
}
