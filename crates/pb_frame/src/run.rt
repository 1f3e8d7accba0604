//! Runs of bytes that need no quoting.
ghost use Rattle.std.specs.Prelude.{◌≡◌, ◌+◌, ◌*◌, ◌<◌, ◌≤◌, slice_index, All, length, take, true};
ghost use Rattle.pb_frame.specs.Signature.{sig};
ghost use Rattle.pb_frame.specs.Framing.{IsPlain};

use crate::limits::{FLAG, QUOTE};
use crate::signing::Signer;

// How many bytes are looked at, copied and signed together.
const GROUP: usize = 8;

/// Copies and signs the bytes of the front of `bytes` that need no quoting, as far as there is room, and answers how
/// many they are.
pub fn copy_plain(bytes: &[u8], room: &mut [u8], signer: &mut Signer) -> usize
    ensures front { result ≤ length bytes.now }
    ensures room { result ≤ length room.old }
    ensures end { result < length bytes.now → result < length room.old
        → ¬ IsPlain (slice_index bytes.now result) }
    ensures plain { All IsPlain (take result bytes.now) }
    ensures copied { take result room.new ≡ take result bytes.now }
    ensures signed { 256 * signer.new.high + signer.new.low
        ≡ sig (take result bytes.now) (256 * signer.old.high + signer.old.low) }
{
    let end = bytes.len().min(room.len());
    let mut sum = *signer;
    let mut done = 0;
    while end - done >= GROUP {
        let group = &bytes[done..done + GROUP];
        if !are_plain(group) {
            break;
        }
        room[done..done + GROUP].copy_from_slice(group);
        sum = sum.steps(group);
        done += GROUP;
    }
    while done < end {
        let byte = bytes[done];
        if matches!(byte, FLAG | QUOTE) {
            break;
        }
        room[done] = byte;
        sum = sum.step(byte);
        done += 1;
    }
    *signer = sum;
    done
}

// Whether all bytes of a group stand for themselves. It looks at each, so that a processor looks at all at once.
fn are_plain(group: &[u8]) -> bool
    ensures { result ≡ true → All IsPlain group.now }
{
    let mut plain = true;
    for byte in group {
        plain &= !matches!(*byte, FLAG | QUOTE);
    }
    plain
}
