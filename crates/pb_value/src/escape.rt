//! Escaped texts, of names and of ASCII values.
ghost use Rattle.std.specs.Prelude.{◌≡◌, ◌≤◌, ◌*◌, ◌==◌, length, position, IfOk, OnErr};
ghost use Rattle.pb_base.specs.Put.{IsWritten, DoesNotFit};
ghost use Rattle.pb_value.specs.Escape.{ascii_text, name_text, before_zero};

use crate::characters::{Alphabet, write_characters};
use pb_base::Full;

/// The most characters of an escaped byte.
pub const ESCAPED_MAX: usize = 4;

#[tactic(auto, unfolding(crate::specs::Escape::name_text))]
/// The escaped text of a name (of this project): characters from `!` to `~` stand for themselves, but the backslash
/// is `\\`; each other byte, also a space, is `\x` and two upper-case hexadecimal digits. The answer is the number
/// of bytes written; `Full` where they don't fit, and then nothing is written. A long name may be written in pieces.
pub fn escape_into(bytes: &[u8], out: &mut [u8]) -> Result<usize, Full>
    ensures written { IfOk result (IsWritten (name_text bytes.now) out.old out.new) }
    ensures full { OnErr result (DoesNotFit (name_text bytes.now) out.old out.new) }
    ensures short { length (name_text bytes.now) ≤ ESCAPED_MAX * length bytes.now }
{
    write_characters(Alphabet::Names, bytes, out)
}

#[tactic(auto, unfolding(crate::specs::Escape::ascii_text))]
/// The text of an ASCII value: its bytes before the first zero byte, with spaces as they are.
pub fn ascii_into(bytes: &[u8], out: &mut [u8]) -> Result<usize, Full>
    ensures written { IfOk result (IsWritten (ascii_text bytes.now) out.old out.new) }
    ensures full { OnErr result (DoesNotFit (ascii_text bytes.now) out.old out.new) }
    ensures short { length (ascii_text bytes.now) ≤ ESCAPED_MAX * length bytes.now }
{
    write_characters(Alphabet::Values, cut_at_zero(bytes), out)
}

/// The bytes before the first zero byte; all where there is none.
fn cut_at_zero(bytes: &[u8]) -> &[u8]
    ensures { result.now ≡ before_zero bytes.now }
{
    match first_zero(bytes) {
        Some(n) => &bytes[..n],
        None => bytes,
    }
}

/// The place of the first zero byte.
fn first_zero(bytes: &[u8]) -> Option<usize>
    ensures { result ≡ position (λ byte. byte == 0) bytes.now }
{
    bytes.iter().position(|byte| *byte == 0)
}
