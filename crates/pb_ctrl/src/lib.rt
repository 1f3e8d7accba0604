//! PakCtrl messages.
#![tactic(auto)]

mod failure;
mod hello;
mod laws;
mod message;
mod reading;
mod settings;
mod writing;

pub use laws::{worked_messages, written_message_is_read};
pub use message::Ctrl;
pub use reading::read;
pub use writing::write;

#[cfg(test)]
mod tests;
