//! A simulated station: a datalogger whose every answer is known.
#![tactic(auto)]

mod bmp5_answers;
mod collect;
mod copying;
mod ctrl_answers;
mod device;
mod fault;
mod file_slot;
mod files;
mod laws;
mod making;
mod refusing;
mod reply;
mod run;
mod settings;
mod station;
mod table;

pub use fault::StationFault;
pub use laws::{
    a_reply_is_filled, collect_is_answered_fully, messages_are_read, settings_are_their_bytes,
};
pub use station::{Answered, Station};

#[cfg(test)]
mod collect_tests;
#[cfg(test)]
mod file_tests;
#[cfg(test)]
mod tests;
