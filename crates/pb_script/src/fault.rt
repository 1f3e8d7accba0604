//! Why a text is no script.
use thiserror::Error;

/// Why a text is no script.
#[derive(Clone, Copy, Debug, Drop, PartialEq, Eq, Error)]
pub enum ScriptFault {
    /// This line is the first that is refused, counted from 1; it may be one past the last.
    #[error("format at line {0}")]
    Line(u32),
    /// There was no memory.
    #[error("no memory")]
    Memory,
}
