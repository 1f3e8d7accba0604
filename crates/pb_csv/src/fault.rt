//! Why an export ends before its end.

/// Why an export ends before its end. Places count bytes of the archive's file from 0.
#[derive(Clone, Copy, Debug, Drop, PartialEq, Eq)]
pub enum ExportFault {
    /// A write failed; the sink's count of faults has risen.
    WriteFault,
    /// A disk call failed; the disk's count of faults has risen.
    DiskFault,
    /// The entry with its gate here can't be read any more, which comes only over a disk that doesn't report its file.
    Format { at: u64 },
    /// There was no memory.
    Memory,
}
