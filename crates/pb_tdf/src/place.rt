//! The place of a field in the bytes of its table.

/// Where a field is in the bytes of its table.
#[derive(Clone, Copy, Debug)]
pub struct FieldPlace {
    /// The place of its type byte.
    pub at: u32,
    /// The length of its name, which follows the type byte.
    pub name_len: usize,
    pub dimension: u32,
}
