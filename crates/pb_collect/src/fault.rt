//! Why reading the stations' definitions is broken off.
/// What broke it off.
#[derive(Clone, Copy, Debug, PartialEq, Eq)]
pub enum DefsFault {
    /// A disk call failed; the collector's archive must be opened again.
    DiskFault,
    /// A link call failed; the archive stays usable.
    LinkFault,
    /// There was no memory; the archive stays usable.
    Memory,
}
