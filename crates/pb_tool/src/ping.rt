//! `ping`: a hello to a node, and then a question for its time.

mod answer;
mod greeting;
mod lines;
mod questions;
mod request;

pub use lines::print;
