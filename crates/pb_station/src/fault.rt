//! Why no station is made of a table definition file.
use pb_base::TableNo;
use pb_tdf::TdfFault;
use thiserror::Error;

/// No station can be made. Of several tables of which no ring can be made the first is named.
#[derive(Debug, Drop, Clone, Copy, PartialEq, Eq, Error)]
pub enum StationFault {
    /// The definitions can't be read.
    #[error("the table definitions can't be read")]
    Tdf(TdfFault),
    /// The table has a field of type 16, a text of any length.
    #[error("a table has a text of any length")]
    Uncollectable { table: TableNo },
    /// The table holds no records, or with it the rings would hold more than 67,108,864 bytes.
    #[error("a table holds no records, or too many")]
    BadSize { table: TableNo },
    /// There was no memory.
    #[error("no memory")]
    Memory,
}
