//! A request over a site: it is sent, and what is heard is judged until an answer or a limit.
#![tactic(auto)]

mod inbox;
mod judging;
mod laws;
mod listener;
mod question;

pub use inbox::CHUNK;
pub use laws::{law_judged, law_listening, law_message, law_resent, law_stream};
pub use listener::Listener;
pub use question::{Conclusion, Ended, Question};
