//! A row of a table: a kept record, or numbers that aren't kept.
use pb_base::RecNo;
use pb_record::RecordView;

/// A row of a table, in the order of the record numbers.
#[derive(Clone, Copy, Debug, PartialEq, Eq)]
pub enum Row<'a> {
    /// A record that is kept. Its bytes are borrowed.
    Kept(RecordView<'a>),
    /// The numbers from `from` up to, not with, `to`: none of them is kept.
    Gap { from: RecNo, to: RecNo },
}

/// Which row was read last.
#[derive(Clone, Copy)]
pub(crate) enum Last {
    Nothing,
    /// The record at this place of the run.
    Kept(u16),
    Gap { from: u32, to: u32 },
}
