//! Numbers of type FP2: a sign, a number of decimals and a mantissa in two bytes.
ghost use Rattle.std.specs.Prelude.{◌≡◌, ◌<◌, ◌≤◌, ◌++◌, length, IfOk, OnErr};
ghost use Rattle.pb_base.specs.Put.{IsWritten, DoesNotFit};
ghost use Rattle.pb_value.specs.Fp2.{fp2_text, number_text, sign_text, signed_text};

use crate::number::digits;
use crate::text::{write_parts, write_text};
use itoa::Buffer;
use pb_base::Full;

/// The words that are no numbers.
const INFINITY: u16 = 0x1FFF;

const MINUS_INFINITY: u16 = 0x9FFF;

const NOT_A_NUMBER: u16 = 0x9FFE;

#[tactic(auto, unfolding(crate::specs::Fp2::fp2_text))]
/// The number of a word, or `INF`, `-INF` or `NAN`.
pub fn fp2_into(word: u16, out: &mut [u8]) -> Result<usize, Full>
    ensures written { IfOk result (IsWritten (fp2_text word) out.old out.new) }
    ensures full { OnErr result (DoesNotFit (fp2_text word) out.old out.new) }
    ensures short { length (fp2_text word) ≤ 9 }
{
    match word {
        INFINITY => write_text(b"INF", out),
        MINUS_INFINITY => write_text(b"-INF", out),
        NOT_A_NUMBER => write_text(b"NAN", out),
        _ => number_into(word, out),
    }
}

fn number_into(word: u16, out: &mut [u8]) -> Result<usize, Full>
    ensures written { IfOk result (IsWritten (number_text word) out.old out.new) }
    ensures full { OnErr result (DoesNotFit (number_text word) out.old out.new) }
{
    let negative = word / 0x8000 == 1;
    let mantissa = word % 0x2000;
    match word / 0x2000 % 4 {
        0 => no_decimals(negative, mantissa, out),
        1 => one_decimal(negative, mantissa, out),
        2 => two_decimals(negative, mantissa, out),
        _ => three_decimals(negative, mantissa, out),
    }
}

fn no_decimals(negative: bool, mantissa: u16, out: &mut [u8]) -> Result<usize, Full>
    requires { mantissa < 8192 }
    ensures written { IfOk result (IsWritten (signed_text negative mantissa 0) out.old out.new) }
    ensures full { OnErr result (DoesNotFit (signed_text negative mantissa 0) out.old out.new) }
{
    write_parts(
        sign(negative),
        Buffer::new().format(mantissa).as_bytes(),
        &[],
        out,
    )
}

fn one_decimal(negative: bool, mantissa: u16, out: &mut [u8]) -> Result<usize, Full>
    requires { mantissa < 8192 }
    ensures written { IfOk result (IsWritten (signed_text negative mantissa 1) out.old out.new) }
    ensures full { OnErr result (DoesNotFit (signed_text negative mantissa 1) out.old out.new) }
{
    let [a, b, c, d] = digits::<4>(u32::from(mantissa));
    if mantissa >= 1000 {
        write_signed(negative, [a, b, c, b'.', d], out)
    } else if mantissa >= 100 {
        write_signed(negative, [b, c, b'.', d], out)
    } else {
        write_signed(negative, [c, b'.', d], out)
    }
}

fn two_decimals(negative: bool, mantissa: u16, out: &mut [u8]) -> Result<usize, Full>
    requires { mantissa < 8192 }
    ensures written { IfOk result (IsWritten (signed_text negative mantissa 2) out.old out.new) }
    ensures full { OnErr result (DoesNotFit (signed_text negative mantissa 2) out.old out.new) }
{
    let [a, b, c, d] = digits::<4>(u32::from(mantissa));
    if mantissa >= 1000 {
        write_signed(negative, [a, b, b'.', c, d], out)
    } else {
        write_signed(negative, [b, b'.', c, d], out)
    }
}

fn three_decimals(negative: bool, mantissa: u16, out: &mut [u8]) -> Result<usize, Full>
    requires { mantissa < 8192 }
    ensures written { IfOk result (IsWritten (signed_text negative mantissa 3) out.old out.new) }
    ensures full { OnErr result (DoesNotFit (signed_text negative mantissa 3) out.old out.new) }
{
    let [a, b, c, d] = digits::<4>(u32::from(mantissa));
    write_signed(negative, [a, b'.', b, c, d], out)
}

/// A sign and a text, whose length is known.
fn write_signed<const N: usize>(
    negative: bool,
    text: [u8; N],
    out: &mut [u8],
) -> Result<usize, Full>
    ensures written { IfOk result (IsWritten (sign_text negative ++ text.entry) out.old out.new) }
    ensures full { OnErr result (DoesNotFit (sign_text negative ++ text.entry) out.old out.new) }
{
    if negative {
        write_parts(b"-", &text, &[], out)
    } else {
        write_text(&text, out)
    }
}

fn sign(negative: bool) -> &'static [u8]
    ensures { result.now ≡ sign_text negative }
{
    if negative { b"-" } else { b"" }
}
