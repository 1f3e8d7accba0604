//! The states of an unframer.
/// Where in the stream an unframer is.
#[derive(Clone, Copy)]
pub enum State {
    /// Before the first flag byte, or behind a fault: all is passed over up to the next flag byte.
    Skipping,
    /// Behind a flag byte.
    Between,
    /// Behind the flag byte that ended a good body, which is kept up to the next push.
    Whole,
    /// In a piece.
    Plain,
    /// In a piece, behind the quote byte.
    Quoting,
}
