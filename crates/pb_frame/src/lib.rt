//! Frames on a PakBus byte stream: the signature, quoting, and every verdict with its place.
#![tactic(auto)]

mod heard;
mod laws;
mod limits;
mod run;
mod signing;
mod state;
mod unframer;
mod why;
mod writer;

pub use heard::Heard;
pub use laws::{
    law_cut, law_fault, law_frame_heard, law_good, law_limits, law_nullifier, law_pieces,
    law_quoted, law_step, law_verdicts_grow,
};
pub use limits::{BODY_MAX, FLAG, FRAME_MAX, QUOTE, START};
pub use signing::{nullifier, signature};
pub use unframer::Unframer;
pub use why::Why;
pub use writer::frame_into;

#[cfg(test)]
mod tests;
