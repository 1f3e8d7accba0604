//! One request and its answer: what a packet is to a request, how long it waits, and how often it is sent.
#![tactic(auto)]

mod asked;
mod exchange;
mod judging;
mod laws;

pub use asked::{Asked, FLOOD, Limits, Step, WAIT_MAX};
pub use exchange::Exchange;
pub use laws::law_limits;
