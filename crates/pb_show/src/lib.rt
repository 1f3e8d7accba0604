//! The text of a framed stream: one line for each packet, with its message, and one for each damage.
#![tactic(auto)]

mod bmp5;
mod ctrl;
mod message;
mod packet;
mod text;
mod value;

pub use packet::{push_bad, push_body};
pub use text::{push_escaped, push_hex};

#[cfg(test)]
mod tests;
