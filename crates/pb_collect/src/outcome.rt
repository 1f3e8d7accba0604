//! What came of a table in a round.
use crate::ending::End;
use pb_base::{RecNo, TableId};

/// A table that came to its end: its fronts before and after, the gap numbers that were added, and the requests made; a
/// sending again of one request counts once.
#[derive(Clone, Copy, Debug, PartialEq, Eq)]
pub struct Outcome {
    pub table: TableId,
    pub from: RecNo,
    pub to: RecNo,
    pub gaps: u32,
    pub asked: u32,
    pub end: End,
}
