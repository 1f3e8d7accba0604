//! The signature and its nullifier.
ghost use Rattle.std.specs.Prelude.{◌≡◌, ◌==◌, ℕ, ◌+◌, ◌*◌, ◌<◌, take, drop, length};
ghost use Rattle.pb_frame.specs.Signature.{step, sig, null};

/// A signature as its two bytes, which is how it is stepped fastest.
#[derive(Clone, Copy)]
pub struct Signer {
    pub high: u8,
    pub low: u8,
}

impl Signer {
    pub fn new(start: u16) -> Signer
        ensures { 256 * result.high + result.low ≡ start }
    {
        Signer {
            high: (start / 256) as u8,
            low: (start % 256) as u8,
        }
    }

    /// The signature after one more byte.
    pub fn step(self, byte: u8) -> Signer
        ensures { 256 * result.high + result.low ≡ step (256 * self.high + self.low) byte }
    {
        // The shift within nine bits and the carry are together a rotation of the low byte.
        let rotated = self.low.wrapping_mul(2).wrapping_add(self.low / 128);
        Signer {
            high: self.low,
            low: rotated.wrapping_add(self.high.wrapping_add(byte)),
        }
    }

    /// The signature after these bytes more.
    pub fn steps(self, bytes: &[u8]) -> Signer
        ensures { 256 * result.high + result.low ≡ sig bytes.now (256 * self.high + self.low) }
    {
        let mut sum = self;
        for byte in bytes {
            sum = sum.step(*byte);
        }
        sum
    }

    pub fn get(self) -> u16
        ensures { result ≡ 256 * self.high + self.low }
    {
        self.high as u16 * 256 + self.low as u16
    }

    /// Whether the signature is 0.
    pub fn is_zero(self) -> bool
        ensures { result ≡ (256 * self.high + self.low == 0) }
    {
        self.high == 0 && self.low == 0
    }
}

/// The signature of `bytes` over `start` (PakBus).
pub fn signature(bytes: &[u8], start: u16) -> u16
    ensures { result ≡ sig bytes.now start }
{
    Signer::new(start).steps(bytes).get()
}

/// The two bytes that bring a signature to 0 (PakBus).
pub fn nullifier(sig: u16) -> [u8; 2]
    ensures { result ≡ null sig }
{
    let doubled = sig % 256 * 2;
    let shifted = if doubled >= 256 { doubled + 1 } else { doubled };
    let first = (1024 - (shifted + sig / 256)) % 256;
    let second = (256 - sig % 256) % 256;
    [first as u8, second as u8]
}
