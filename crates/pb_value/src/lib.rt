//! The values of a record and their texts, by the types of the table's fields.
#![tactic(auto)]

mod characters;
mod escape;
mod fp2;
mod hex;
mod laws;
mod number;
mod record_values;
mod text;
mod time;
mod value;

pub use escape::{ESCAPED_MAX, escape_into};
pub use hex::hex_digits_into;
pub use laws::{known_times_have_their_texts, pieces_of_texts_compose};
pub use record_values::{ValuesOf, values};
pub use time::{TIME_TEXT_MAX, time_into};
pub use value::{VALUE_TEXT_MAX, Value, text_into};

#[cfg(test)]
mod tests;
