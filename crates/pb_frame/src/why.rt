//! Why a piece isn't good.
/// Why a piece of the stream holds no good body, in the order of the test (PakBus).
#[derive(Clone, Copy, Debug, PartialEq, Eq)]
pub enum Why {
    /// What stands behind the quote byte 0xBC is neither 0xDC nor 0xDD; it may be the flag byte that ends the piece.
    Quote,
    /// More than 1,010 body bytes.
    Long,
    /// At its end, the piece has fewer than 10 body bytes, and not 6.
    Short,
    /// At its end, the piece has a body whose signature is another than 0.
    Signature,
}
