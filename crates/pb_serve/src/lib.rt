//! A station on a link: it hears frames, and answers them, until so many good ones came.
#![tactic(auto)]

mod goal;
mod laws;
mod reply;
mod server;

pub use goal::{GOAL_MAX, Goal};
pub use laws::{what_a_server_sends, what_a_server_sends_in_time};
pub use server::{CHUNK, End, FLOOD, IDLE, Server};
