//! The commands of `pakbus`, over any site, source and sink.
#![tactic(auto)]

mod cause;
mod check;
mod closing;
mod collect;
mod commands;
mod defs;
mod export;
mod init;
mod input;
mod ping;
mod refusal;
mod serve;
mod show;
mod status;
mod words;

pub use commands::run;
pub use status::Status;
