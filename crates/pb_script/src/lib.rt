//! The script of one station: its tables and what is stored in them, as text, and the station that it stands for.
#![tactic(auto)]

mod draft;
mod fault;
mod file;
mod filling;
mod line;
mod reading;
mod record;
mod script;
mod table;
mod words;
mod worked;

pub use fault::ScriptFault;
pub use reading::SCRIPT_TEXT_MAX;
pub use script::Script;
pub use table::{Kind, ScriptTable, Shape};

#[cfg(test)]
mod tests;
