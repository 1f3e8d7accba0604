//! The bytes and the limits of frames.
/// The byte that begins and ends a frame (PakBus).
pub const FLAG: u8 = 0xBD;

/// The byte that begins a quoted byte (PakBus).
pub const QUOTE: u8 = 0xBC;

/// What stands behind the quote byte for the quote byte itself (PakBus).
pub const QUOTED_QUOTE: u8 = 0xDC;

/// What stands behind the quote byte for the flag byte (PakBus).
pub const QUOTED_FLAG: u8 = 0xDD;

/// How far what stands behind the quote byte lies above the byte for which it stands.
pub const QUOTED_BY: u8 = QUOTED_FLAG - FLAG;

/// What a frame's signature starts with (PakBus).
pub const START: u16 = 0xAAAA;

/// The most bytes of a body: a packet and its nullifier (PakBus).
pub const BODY_MAX: usize = 1010;

/// The most bytes of a frame: each body byte quoted, and two flag bytes.
pub const FRAME_MAX: usize = 2022;
