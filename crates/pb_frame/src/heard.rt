//! What a push of an unframer answers.
use crate::Why;

/// What a pushed byte shows. Places count all bytes that were pushed, from 0.
#[derive(Clone, Copy, Debug, PartialEq, Eq)]
pub enum Heard {
    /// No piece was judged.
    Nothing,
    /// A good body; `at` is the place of the first byte of its piece.
    Body { at: u64 },
    /// A piece without a good body; `at` is the place of the byte that shows its first fault.
    Bad { at: u64, why: Why },
}
