//! Why a call on an archive, or a plan, is refused.
use pb_base::Memory;
use pb_journal::JournalFault;
use thiserror::Error;

/// Why a call on an archive is refused. Places count bytes of the file from 0.
#[derive(Clone, Copy, Debug, Drop, PartialEq, Eq, Error)]
pub enum ArchiveFault {
    /// The file holds no journal yet, or one without entries.
    #[error("no archive was created")]
    NotCreated,
    /// The journal has an entry.
    #[error("the archive is there already")]
    Exists,
    /// The file is no journal, or an entry of it breaks a rule; then the place is the entry's gate.
    #[error("format at byte {at}")]
    Format { at: u64 },
    /// A disk call failed; the disk's count of faults has risen.
    #[error("disk fault")]
    DiskFault,
    /// An earlier writing call answered a disk fault: what the file holds is known after an opening.
    #[error("the archive must be opened again")]
    MustReopen,
    /// The table has a stop, with this signature where one was told.
    #[error("the table is stopped")]
    Stopped { told: Option<u16> },
    /// The archive has 1,024 tables.
    #[error("too many tables")]
    TooMany,
    /// There was no memory.
    #[error("no memory")]
    Memory,
}

impl From<JournalFault> for ArchiveFault {
    ghost use Rattle.std.specs.Prelude.{◌≡◌};
    ghost use Rattle.pb_archive.specs.Faults.{of_journal};

    ghost from_gives = { λ fault e. e ≡ of_journal fault };

    fn from(fault: JournalFault) -> Self {
        match fault {
            JournalFault::NotCreated => ArchiveFault::NotCreated,
            JournalFault::Exists => ArchiveFault::Exists,
            JournalFault::Format { at } => ArchiveFault::Format { at },
            JournalFault::DiskFault => ArchiveFault::DiskFault,
            JournalFault::MustReopen => ArchiveFault::MustReopen,
            JournalFault::Memory => ArchiveFault::Memory,
        }
    }
}

impl From<Memory> for ArchiveFault {
    ghost use Rattle.std.specs.Prelude.{◌≡◌};
    ghost use Rattle.pb_archive.specs.declared.fault.ArchiveFault.TheVariants as fault;

    ghost from_gives = { λ _ e. e ≡ fault.Memory };

    fn from(_: Memory) -> Self {
        ArchiveFault::Memory
    }
}

/// Why a text is no plan.
#[derive(Clone, Copy, Debug, Drop, PartialEq, Eq, Error)]
pub enum PlanFault {
    /// This line is the first that is refused, counted from 1; it may be one past the last.
    #[error("format at line {0}")]
    Line(u32),
    /// There was no memory.
    #[error("no memory")]
    Memory,
}
