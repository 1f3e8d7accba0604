//! Bytes in hexadecimal, two upper-case digits a byte.
ghost use Rattle.std.specs.Prelude.{◌≡◌, ◌*◌, ◌<◌, ◌≤◌, length, IfOk, OnErr};
ghost use Rattle.pb_base.specs.Put.{IsWritten, DoesNotFit};
ghost use Rattle.pb_value.specs.Hex.{hex, digit_of};

use crate::text::write_text;
use pb_base::Full;

/// The most bytes of a value that is written in hexadecimal.
const BYTES_MAX: usize = 8;

/// How many characters lie between `9` and `A`.
const AFTER_NINE: u8 = b'A' - b'9' - 1;

/// The digits of at most 8 bytes.
pub fn hex_into(bytes: &[u8], out: &mut [u8]) -> Result<usize, Full>
    requires { length bytes.now ≤ 8 }
    ensures written { IfOk result (IsWritten (hex bytes.now) out.old out.new) }
    ensures full { OnErr result (DoesNotFit (hex bytes.now) out.old out.new) }
    ensures short { length (hex bytes.now) ≤ 16 }
{
    let mut text = [0; 2 * BYTES_MAX];
    let len = 2 * bytes.len();
    hex_digits_into(bytes, &mut text[..len]);
    write_text(&text[..len], out)
}

/// The digits of the bytes, two upper-case digits each.
pub fn hex_digits_into(bytes: &[u8], out: &mut [u8])
    requires { length out.old ≡ 2 * length bytes.now }
    ensures { out.new ≡ hex bytes.now }
{
    for (i, byte) in bytes.iter().enumerate() {
        out[2 * i] = digit(*byte / 16);
        out[2 * i + 1] = digit(*byte % 16);
    }
}

/// `0` to `9`, `A` to `F`.
pub fn digit(n: u8) -> u8
    requires { n < 16 }
    ensures { result ≡ digit_of n }
{
    // One sum with a choice within it makes better code than a choice between two sums.
    b'0' + n + if n < 10 { 0 } else { AFTER_NINE }
}
