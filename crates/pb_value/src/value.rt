//! One value of a record, and its text.
ghost use Rattle.std.specs.Prelude.{◌≡◌, ◌≢◌, ◌≤◌, ◌*◌, length, codes, pos, IfOk, OnErr};
ghost use Rattle.std.specs.Int.{w8, w16, w32, from_be_bytes, cast_signed};
ghost use Rattle.pb_base.specs.Put.{IsWritten, DoesNotFit};
ghost use Rattle.pb_base.specs.Time.{time_of};
ghost use Rattle.pb_tdf.specs.Kinds.{ascii};
ghost use Rattle.pb_value.specs.ValueText.{value_text, truth_text, IsValue};

use crate::escape::{ESCAPED_MAX, ascii_into};
use crate::fp2::fp2_into;
use crate::hex::hex_into;
use crate::number::{half, signed_into, unsigned_into, word};
use crate::text::write_text;
use crate::time::{TIME_TEXT_MAX, time_into};
use pb_base::{Full, Nsec};
use pb_tdf::ASCII;

/// The most bytes of the text of a value that isn't ASCII: those of a time.
pub const VALUE_TEXT_MAX: usize = TIME_TEXT_MAX;

/// One value of a record.
#[derive(Clone, Copy, Debug)]
pub struct Value<'a> {
    /// The code of its type.
    pub kind: u8,
    /// Its bytes, as they are in the record.
    pub bytes: &'a [u8],
}

#[tactic(auto, unfolding(crate::specs::ValueText::value_text))]
/// The text of a value by its type (of this project): numbers are decimal, a Bool is `false` for 0 and else `true`, an
/// FP2 has as many decimals as it says, ASCII is cut at its first zero byte and escaped, Sec and NSec are times, and
/// all others are hexadecimal. The answer is the number of bytes written; `Full` where they don't fit, and then
/// nothing is written. A long ASCII value may be written in pieces.
pub fn text_into(value: &Value, out: &mut [u8]) -> Result<usize, Full>
    requires { IsValue value.now.kind value.now.bytes.now }
    ensures written { IfOk result (IsWritten (value_text value.now.kind value.now.bytes.now) out.old
        out.new) }
    ensures full { OnErr result (DoesNotFit (value_text value.now.kind value.now.bytes.now) out.old
        out.new) }
    ensures short { let v = value.now in
        (v.kind ≢ ascii) → length (value_text v.kind v.bytes.now) ≤ VALUE_TEXT_MAX }
    ensures ascii { let v = value.now in
        (v.kind ≡ ascii) → length (value_text v.kind v.bytes.now) ≤ ESCAPED_MAX * length v.bytes.now }
{
    let bytes = value.bytes;
    match value.kind {
        1 => unsigned_into(u32::from(bytes[0]), out),
        2 => unsigned_into(u32::from(half(bytes)), out),
        3 => unsigned_into(word(bytes), out),
        4 => signed_into(i32::from(bytes[0].cast_signed()), out),
        5 => signed_into(i32::from(half(bytes).cast_signed()), out),
        6 => signed_into(word(bytes).cast_signed(), out),
        7 => fp2_into(half(bytes), out),
        10 => truth_into(bytes[0], out),
        ASCII => ascii_into(bytes, out),
        12 => time_into(second(word(bytes).cast_signed()), out),
        14 => time_into(time(bytes), out),
        _ => hex_into(bytes, out),
    }
}

fn truth_into(n: u8, out: &mut [u8]) -> Result<usize, Full>
    ensures written { IfOk result (IsWritten (truth_text n) out.old out.new) }
    ensures full { OnErr result (DoesNotFit (truth_text n) out.old out.new) }
{
    if n == 0 {
        write_text(b"false", out)
    } else {
        write_text(b"true", out)
    }
}

/// A time of whole seconds.
fn second(sec: i32) -> Nsec
    ensures { result ≡ record { sec = sec; nano = pos 0 } }
{
    Nsec { sec, nano: 0 }
}

fn time(bytes: &[u8]) -> Nsec
    requires { length bytes.now ≡ 8 }
    ensures { result ≡ time_of bytes.now }
{
    Nsec {
        sec: word(&bytes[..4]).cast_signed(),
        nano: word(&bytes[4..]).cast_signed(),
    }
}
