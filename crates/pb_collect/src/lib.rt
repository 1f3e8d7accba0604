//! Collecting tables: what is asked of a table, and what its answers add to the archive.
#![tactic(auto)]

mod answer;
mod asking;
mod broken;
mod collector;
mod command;
mod defining;
mod effect;
mod ending;
mod exchanging;
mod fault;
mod fetching;
mod laws;
mod outcome;
mod progress;
mod question;
mod report;
mod state;
mod table;
mod taking;
mod upload;
mod uploading;

pub use answer::{Said, fits};
pub use collector::{Collector, RoundResult};
pub use command::Contact;
pub use effect::{Advance, Effect, Effects, TIMED, WHOLE};
pub use ending::{End, Next};
pub use fault::DefsFault;
pub use laws::{answers_can_be_taken, questions_are_allowed};
pub use outcome::Outcome;
pub use progress::{CONTENT_MAX, Progress};
pub use question::CollectCommand;
pub use report::{Cause, DefsLine, DefsReport, DefsWhat, Text};
pub use upload::{FileReply, UploadCommand};
