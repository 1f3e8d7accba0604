//! Rings: the records of a table that a station still holds.
#![tactic(auto)]

mod ring;

pub use ring::{RING_BYTES_MAX, Ring, Spent};

#[cfg(test)]
mod tests;
