//! Writing frames.
ghost use Rattle.std.specs.Prelude.{◌≡◌, ℕ, ◌+◌, ◌*◌, ◌<◌, ◌≤◌, ◌↔◌, List, ◌++◌, length, take, drop, IfOk, OnErr, IsErr, IsOk};
ghost use Rattle.pb_frame.specs.Framing.{IsContentSize, frame_max, quoted_byte, quoted, frame};

use crate::limits::{FLAG, QUOTE, QUOTED_FLAG, QUOTED_QUOTE, START};
use crate::signing::{nullifier, signature};
use pb_base::Full;

/// Writes the frame of a content to the front of `out`, and answers its length; `FRAME_MAX` bytes are always enough.
/// `Full` comes where the frame doesn't fit, and leaves `out` as it was (PakBus).
pub fn frame_into(content: &[u8], out: &mut [u8]) -> Result<usize, Full>
    requires { IsContentSize (length content.now) }
    ensures length { IfOk result (λ n. n ≡ length (frame content.now)) }
    ensures ok { IfOk result (λ n. out.new ≡ frame content.now ++ drop n out.old) }
    ensures full { IsErr result ↔ (length out.old < length (frame content.now)) }
    ensures kept { OnErr result (out.new ≡ out.old) }
    ensures enough { frame_max ≤ length out.old → IsOk result }
{
    let ends = nullifier(signature(content, START));
    let size = quoted_length(content) + quoted_length(&ends) + 2;
    if out.len() < size {
        return Err(Full);
    }
    out[0] = FLAG;
    let done = put_quoted(content, out, 1);
    let done = put_quoted(&ends, out, done);
    out[done] = FLAG;
    Ok(done + 1)
}

// The length of the text of one byte.
fn quoted_size(byte: u8) -> usize
    ensures value { result ≡ length (quoted_byte byte) }
    ensures bound { result ≤ 2 }
{
    if matches!(byte, QUOTE | FLAG) { 2 } else { 1 }
}

// The length of the text of `body`.
fn quoted_length(body: &[u8]) -> usize
    requires { length body.now ≤ 1010 }
    ensures value { result ≡ length (quoted body.now) }
    ensures bound { result ≤ 2 * length body.now }
{
    let mut n = 0;
    for byte in body {
        n += quoted_size(*byte);
    }
    n
}

// Writes the text of one byte at a place, and answers the place behind it.
fn put_byte(byte: u8, out: &mut [u8], at: usize) -> usize
    requires { at + length (quoted_byte byte) ≤ length out.old }
    ensures end { result ≡ at + length (quoted_byte byte) }
    ensures text { out.new ≡ take at out.old ++ quoted_byte byte ++ drop result out.old }
{
    let code = match byte {
        QUOTE => QUOTED_QUOTE,
        FLAG => QUOTED_FLAG,
        _ => {
            out[at] = byte;
            return at + 1;
        }
    };
    out[at] = QUOTE;
    out[at + 1] = code;
    at + 2
}

// Writes the text of `body` from a place on, and answers the place behind it.
fn put_quoted(body: &[u8], out: &mut [u8], at: usize) -> usize
    requires { at + length (quoted body.now) ≤ length out.old }
    ensures end { result ≡ at + length (quoted body.now) }
    ensures text { out.new ≡ take at out.old ++ quoted body.now ++ drop result out.old }
{
    let mut to = at;
    for byte in body {
        to = put_byte(*byte, out, to);
    }
    to
}
