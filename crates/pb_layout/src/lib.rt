//! Layouts of messages as data: the kinds of key, their readers and their writers.
#![tactic(auto)]

mod items;
mod keys;
mod laws;
mod lists;
mod pieces;

pub use items::{Numbers, Setting, Settings};
pub use keys::Keys;
pub use laws::bytes_are_one_list;
pub use pieces::{Piece, write_pieces};
