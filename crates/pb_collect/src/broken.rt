//! Why a round is broken off.
/// A call failed before all tables came to their ends.
#[derive(Clone, Copy, Debug, PartialEq, Eq)]
pub(crate) enum Broken {
    /// A disk call; the archive must be opened again.
    DiskFault,
    /// A link call; the archive stays usable.
    LinkFault,
}
