//! Numbers in decimal.
ghost use Rattle.std.specs.Prelude.{◌≡◌, ◌<◌, ◌≤◌, ◌^◌, length, decimal, IfOk, OnErr};
ghost use Rattle.std.specs.Fmt.{signed_decimal};
ghost use Rattle.std.specs.Int.{w16, w32, from_be_bytes};
ghost use Rattle.pb_base.specs.Put.{IsWritten, DoesNotFit};
ghost use Rattle.pb_value.specs.TimeText.{digits};

use crate::text::write_text;
use itoa::Buffer;
use pb_base::Full;

/// A number without a sign.
pub fn unsigned_into(n: u32, out: &mut [u8]) -> Result<usize, Full>
    ensures written { IfOk result (IsWritten (decimal n) out.old out.new) }
    ensures full { OnErr result (DoesNotFit (decimal n) out.old out.new) }
    ensures short { length (decimal n) ≤ 10 }
{
    let mut buffer = Buffer::new();
    write_text(buffer.format(n).as_bytes(), out)
}

/// A number with a minus where it is below 0.
pub fn signed_into(n: i32, out: &mut [u8]) -> Result<usize, Full>
    ensures written { IfOk result (IsWritten (signed_decimal n) out.old out.new) }
    ensures full { OnErr result (DoesNotFit (signed_decimal n) out.old out.new) }
    ensures short { length (signed_decimal n) ≤ 11 }
{
    let mut buffer = Buffer::new();
    write_text(buffer.format(n).as_bytes(), out)
}

/// The number of two bytes, the highest first.
pub fn half(bytes: &[u8]) -> u16
    requires { length bytes.now ≡ 2 }
    ensures { result ≡ from_be_bytes w16 bytes.now }
{
    u16::from_be_bytes([bytes[0], bytes[1]])
}

/// The number of four bytes, the highest first.
pub fn word(bytes: &[u8]) -> u32
    requires { length bytes.now ≡ 4 }
    ensures { result ≡ from_be_bytes w32 bytes.now }
{
    u32::from_be_bytes([bytes[0], bytes[1], bytes[2], bytes[3]])
}

/// As many of a number's last digits as the array has room for.
pub fn digits<const N: usize>(n: u32) -> [u8; N]
    ensures { result ≡ digits N n }
{
    let mut text = [0; N];
    digits_into(&mut text, n);
    text
}

// The last digit is written first.
pub fn digits_into(out: &mut [u8], n: u32)
    ensures { out.new ≡ digits (length out.old) n }
{
    let mut rest = n;
    for i in (0..out.len()).rev() {
        out[i] = b'0' + (rest % 10) as u8;
        rest /= 10;
    }
}
