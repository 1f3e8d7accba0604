//! The lines of a script, one at a time.
ghost use Rattle.std.specs.Prelude.{◌≡◌, ℕ, ◌<◌, ◌^◌, ◌∷◌, ◌++◌, List, MatchOption};
ghost use Rattle.pb_script.specs.Inside.{IsStation, begun};
ghost use Rattle.pb_script.specs.Script.{CanBegin, IsAddress, IsScriptName, IsScriptTable, IsShape, Script};
ghost use Rattle.pb_script.specs.ScriptText.{self_line, shape_text, station_line, store_line, table_line};

use crate::table::{ScriptTable, Shape, Station};
use crate::words::{LINE_FEED, SPACE, after_station, kind_until_space, name_until_space};
use pb_base::{Name, NodeId, after, number_until};

/// The highest address of a node that isn't every node's.
const ADDRESS_MAX: u32 = 4094;

/// The greatest security code.
const CODE_MAX: u32 = 65_535;

/// How a table is made, and what comes after its line.
#[derive(Clone, Copy)]
struct Shaped<'a> {
    shape: Shape,
    rest: &'a [u8],
}

// The last four words of a table's line.
fn read_shape(text: &[u8]) -> Option<Shaped>
    ensures { MatchOption result ((shape : Shape) (rest : List ℕ) → IsShape shape
        → text.now ≡ shape_text shape rest → ⊥)
        (λ r. IsShape r.shape × (text.now ≡ shape_text r.shape r.rest.now)) }
{
    let size = match number_until(text, SPACE) {
        Some(size) => size,
        None => return None,
    };
    let interval = match number_until(size.rest, SPACE) {
        Some(interval) => interval,
        None => return None,
    };
    let kind = match kind_until_space(interval.rest) {
        Some(kind) => kind,
        None => return None,
    };
    let count = match number_until(kind.rest, LINE_FEED) {
        Some(count) => count,
        None => return None,
    };
    let shape = Shape {
        size: size.n,
        interval: interval.n,
        kind: kind.kind,
        count: count.n,
    };
    if !shape.is_allowed() {
        return None;
    }
    Some(Shaped {
        shape,
        rest: count.rest,
    })
}

/// A table without records, and what comes after its line.
#[derive(Clone, Copy)]
pub(crate) struct NextTable<'a> {
    pub(crate) table: ScriptTable,
    pub(crate) rest: &'a [u8],
}

/// The table that the next line declares at this station; none where no such line comes next.
pub(crate) fn read_table<'a>(station: &[u8], text: &'a [u8]) -> Option<NextTable<'a>>
    ensures { MatchOption result ((t : ScriptTable) (rest : List ℕ) → IsScriptTable t
        → text.entry.now ≡ table_line station.now t rest → ⊥)
        (λ r. IsScriptTable r.table × (r.table.stored ≡ 0) × (text.entry.now ≡ table_line station.now r.table r.rest.now)) }
{
    let rest = match after_station(text, b"table ", station) {
        Some(rest) => rest,
        None => return None,
    };
    let named = match name_until_space(rest) {
        Some(named) => named,
        None => return None,
    };
    match read_shape(named.rest) {
        Some(shaped) => Some(NextTable {
            table: ScriptTable {
                name: named.name,
                shape: shaped.shape,
                stored: 0,
            },
            rest: shaped.rest,
        }),
        None => None,
    }
}

/// The name of a table, how many records are stored in it, and what comes after the line that stores them.
#[derive(Clone, Copy)]
pub(crate) struct NextStore<'a> {
    pub(crate) name: Name,
    pub(crate) n: u32,
    pub(crate) rest: &'a [u8],
}

/// What the next line stores at this station; none where no such line comes next.
pub(crate) fn read_store<'a>(station: &[u8], text: &'a [u8]) -> Option<NextStore<'a>>
    ensures { MatchOption result ((name : List ℕ) (n : ℕ) (rest : List ℕ) → IsScriptName name → n < 2 ^ 32
        → text.entry.now ≡ store_line station.now name n rest → ⊥)
        (λ r. IsScriptName r.name × (r.n < 2 ^ 32) × (text.entry.now ≡ store_line station.now r.name r.n r.rest.now)) }
{
    let rest = match after_station(text, b"store ", station) {
        Some(rest) => rest,
        None => return None,
    };
    let named = match name_until_space(rest) {
        Some(named) => named,
        None => return None,
    };
    match number_until(named.rest, LINE_FEED) {
        Some(count) => Some(NextStore {
            name: named.name,
            n: count.n,
            rest: count.rest,
        }),
        None => None,
    }
}

/// The address that asks, and what comes after its line.
#[derive(Clone, Copy)]
pub(crate) struct Asker<'a> {
    pub(crate) me: NodeId,
    pub(crate) rest: &'a [u8],
}

/// The address of the first line; none where no such line comes first.
pub(crate) fn read_self(text: &[u8]) -> Option<Asker>
    ensures { MatchOption result ((me : ℕ) (rest : List ℕ) → IsAddress me
        → text.now ≡ self_line me rest → ⊥)
        (λ r. IsAddress r.me × (text.now ≡ self_line r.me r.rest.now)) }
{
    let rest = match after(text, b"self ") {
        Some(rest) => rest,
        None => return None,
    };
    let number = match number_until(rest, LINE_FEED) {
        Some(number) => number,
        None => return None,
    };
    match address(number.n) {
        Some(me) => Some(Asker {
            me,
            rest: number.rest,
        }),
        None => None,
    }
}

// The address of one node, 1 to 4094.
fn address(n: u32) -> Option<NodeId>
    ensures { MatchOption result (IsAddress n → ⊥) (λ node. (node ≡ n) × IsAddress n) }
{
    if n > ADDRESS_MAX {
        return None;
    }
    NodeId::new(n as u16)
}

/// A station, and what comes after its line.
#[derive(Clone, Copy)]
pub(crate) struct NextStation<'a> {
    pub(crate) station: Station,
    pub(crate) rest: &'a [u8],
}

/// The station of the second line; none where no such line comes next.
pub(crate) fn read_station(me: NodeId, text: &[u8]) -> Option<NextStation>
    requires { IsAddress me }
    ensures { MatchOption result ((s : Script) (rest : List ℕ) → CanBegin s → s.me ≡ me
        → text.now ≡ station_line s rest → ⊥)
        (λ r. CanBegin (begun me r.station) × (text.now ≡ station_line (begun me r.station) r.rest.now)) }
{
    let rest = match after(text, b"station ") {
        Some(rest) => rest,
        None => return None,
    };
    let named = match name_until_space(rest) {
        Some(named) => named,
        None => return None,
    };
    let addr = match number_until(named.rest, SPACE) {
        Some(addr) => addr,
        None => return None,
    };
    let code = match number_until(addr.rest, LINE_FEED) {
        Some(code) => code,
        None => return None,
    };
    match station_of(me, named.name, addr.n, code.n) {
        Some(station) => Some(NextStation {
            station,
            rest: code.rest,
        }),
        None => None,
    }
}

// A station at another address than the one that asks; none where a number is out of its range.
fn station_of(me: NodeId, name: Name, addr: u32, code: u32) -> Option<Station>
    ensures { MatchOption result (IsStation me addr code → ⊥)
        (λ s. IsStation me addr code × (s.name ≡ name) × (s.addr ≡ addr) × (s.code ≡ code)) }
{
    let addr = match address(addr) {
        Some(addr) => addr,
        None => return None,
    };
    if addr == me || code > CODE_MAX {
        return None;
    }
    Some(Station {
        name,
        addr,
        code: code as u16,
    })
}
