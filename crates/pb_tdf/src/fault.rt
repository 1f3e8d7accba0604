//! Why table definitions are refused.
use thiserror::Error;

/// Table definitions can't be read. The fault is the first in the order of the bytes; `at` is its place
/// in them, from 0. An item is one number, one time or one text, and its place is its first byte.
#[derive(Debug, Drop, Clone, Copy, PartialEq, Eq, Error)]
pub enum TdfFault {
    /// The first byte is there and isn't the version 1.
    #[error("no table definitions of version 1")]
    BadVersion,
    /// The bytes end within the number that begins at `at`.
    #[error("the number at byte {at} is cut short")]
    Short { at: usize },
    /// No zero byte ends the text that begins at `at`.
    #[error("the text at byte {at} has no end")]
    NoEnd { at: usize },
    /// The field type at `at` doesn't exist, or the interval at `at` is none.
    #[error("no type or interval at byte {at}")]
    BadType { at: usize },
    /// What begins at `at` passes a limit, or follows a whole table.
    #[error("byte {at} is past a limit")]
    TooMany { at: usize },
    /// There was no memory.
    #[error("no memory")]
    Memory,
}

/// A table with a field of type 16, a text of any length, has no layout, and isn't collected.
#[derive(Clone, Copy, Debug, PartialEq, Eq)]
pub struct Uncollectable;
