//! A list of entries in a file: each stays once its append has answered, wherever a write stops.
#![tactic(auto)]

mod creation;
mod entries;
mod fault;
mod journal;
mod laws;
mod opening;
mod recovery;
mod staging;
mod walk;
mod window;

pub use creation::create;
pub use entries::Entries;
pub use fault::JournalFault;
pub use journal::Journal;
pub use laws::{entries_are_one, entries_lie_ahead, refused_has_no_entries};

#[cfg(test)]
mod tests;
