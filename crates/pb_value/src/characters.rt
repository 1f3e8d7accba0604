//! Bytes as printable characters, one byte after the other.
ghost use Rattle.std.specs.Prelude.{◌≡◌, ◌≤◌, ◌↔◌, ℕ, List, [], IsTrue, length, take, IfOk, OnErr};
ghost use Rattle.std.specs.List.{flat_map};
ghost use Rattle.pb_base.specs.Put.{IsWritten, DoesNotFit, writing, with_piece};
ghost use Rattle.pb_value.specs.Escape.{escaped};
ghost use Rattle.pb_value.specs.Inside.Characters.{character};

use crate::hex::digit;
use pb_base::{Full, Put};

/// Which bytes are written as they are.
#[derive(Clone, Copy, Debug)]
pub enum Alphabet {
    /// Those of values: printable characters but the backslash.
    Values,
    /// Those of names: the same but the space.
    Names,
}

/// The characters of one byte, at most four.
#[derive(Clone, Copy)]
struct Character {
    text: [u8; 4],
    len: usize,
    ghost within: { len ≤ 4 },
}

/// The text of each byte, one after the other.
pub fn write_characters(alphabet: Alphabet, bytes: &[u8], out: &mut [u8]) -> Result<usize, Full>
    ensures written { IfOk result (IsWritten (flat_map (character alphabet) bytes.now) out.old out.new) }
    ensures full { OnErr result (DoesNotFit (flat_map (character alphabet) bytes.now) out.old out.new) }
{
    if !fits(alphabet, bytes, out.len()) {
        return Err(Full);
    }
    let mut put = Put::new(out);
    for byte in bytes {
        push_character(&mut put, alphabet, *byte);
    }
    Ok(put.len())
}

/// Whether the text of all bytes has no more bytes than there is room for.
fn fits(alphabet: Alphabet, bytes: &[u8], room: usize) -> bool
    ensures { IsTrue result ↔ (length (flat_map (character alphabet) bytes.now) ≤ room) }
{
    let mut left = room;
    for byte in bytes {
        let len = character_of(alphabet, *byte).len;
        if left < len {
            return false;
        }
        left -= len;
    }
    true
}

fn push_character(put: &mut Put, alphabet: Alphabet, byte: u8)
    requires { length (character alphabet byte) ≤ length (writing put.old).room }
    ensures { writing put.new ≡ with_piece (character alphabet byte) (writing put.old) }
{
    let c = character_of(alphabet, byte);
    push(put, &c.text[..c.len]);
}

/// Writes where there is room.
fn push(put: &mut Put, text: &[u8])
    requires { length text.now ≤ length (writing put.old).room }
    ensures { writing put.new ≡ with_piece text.now (writing put.old) }
{
    let _written = put.bytes(text);
}

fn character_of(alphabet: Alphabet, byte: u8) -> Character
    ensures text { take result.len result.text ≡ character alphabet byte }
    ensures len { result.len ≡ length (character alphabet byte) }
{
    match (alphabet, byte) {
        (Alphabet::Names, b' ') => escaped(byte),
        (_, b'\\') => Character {
            text: [b'\\', b'\\', 0, 0],
            len: 2,
        },
        (_, b' '..=b'~') => Character {
            text: [byte, 0, 0, 0],
            len: 1,
        },
        _ => escaped(byte),
    }
}

fn escaped(byte: u8) -> Character
    ensures text { result.text ≡ escaped byte }
    ensures len { result.len ≡ 4 }
{
    Character {
        text: [b'\\', b'x', digit(byte / 16), digit(byte % 16)],
        len: 4,
    }
}
