//! Texts of one part or of three, written whole or not at all.
ghost use Rattle.std.specs.Prelude.{◌++◌, IfOk, OnErr};
ghost use Rattle.pb_base.specs.Put.{IsWritten, DoesNotFit};

use pb_base::{Full, Put};

/// A text of one part.
pub fn write_text(text: &[u8], out: &mut [u8]) -> Result<usize, Full>
    ensures written { IfOk result (IsWritten text.now out.old out.new) }
    ensures full { OnErr result (DoesNotFit text.now out.old out.new) }
{
    let mut put = Put::new(out);
    put.bytes(text)?;
    Ok(put.len())
}

/// A text of three parts, of which any may be empty.
pub fn write_parts(first: &[u8], second: &[u8], third: &[u8], out: &mut [u8]) -> Result<usize, Full>
    ensures written { IfOk result (IsWritten (first.now ++ second.now ++ third.now) out.old out.new) }
    ensures full { OnErr result (DoesNotFit (first.now ++ second.now ++ third.now) out.old out.new) }
{
    let room = out.len();
    if room < first.len() || room - first.len() < second.len() {
        return Err(Full);
    }
    if room - first.len() - second.len() < third.len() {
        return Err(Full);
    }
    let mut put = Put::new(out);
    put.bytes(first)?;
    put.bytes(second)?;
    put.bytes(third)?;
    Ok(put.len())
}
