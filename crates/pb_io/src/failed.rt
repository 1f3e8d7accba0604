//! What a failed call to the outside answers.
/// A call to the outside failed; the count of faults of what was called has risen.
#[derive(Clone, Copy, Debug, PartialEq, Eq)]
pub struct Failed;
