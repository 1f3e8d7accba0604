ghost use Rattle.std.specs.Prelude.{◌≡◌, ℕ, ◌+◌, ◌<◌, ◌≤◌, ◌++◌, length, IfOk, OnErr};
ghost use Rattle.pb_base.specs.Put.{writing, with_piece, IsWritten, DoesNotFit};
ghost use Rattle.pb_layout.specs.Pieces.{piece_bytes, pieces_bytes};

use pb_base::{Full, Nsec, Put};

/// A piece of a message that is written.
#[derive(Clone, Copy, Debug)]
pub enum Piece<'a> {
    /// One byte.
    Byte(u8),
    /// Two bytes, the higher one first.
    Half(u16),
    /// Four bytes, the highest first.
    Word(u32),
    /// Eight bytes: the seconds, then the nanoseconds.
    Time(Nsec),
    /// The bytes as they are.
    Bytes(&'a [u8]),
    /// A text, and the zero byte that ends it.
    Text(&'a [u8]),
    /// Numbers of two bytes each, as their bytes, and the 0 that ends them.
    Numbers(&'a [u8]),
}

/// Writes the pieces one after another to the front of `out`, and answers how many bytes they have. Where they don't
/// all fit nothing is written.
pub fn write_pieces(pieces: &[Piece], out: &mut [u8]) -> Result<usize, Full>
    ensures written { IfOk result (IsWritten (pieces_bytes pieces.now) out.old out.new) }
    ensures full { OnErr result (DoesNotFit (pieces_bytes pieces.now) out.old out.new) }
{
    let len = len_within(pieces, out.len())?;
    let mut put = Put::new(out);
    for piece in pieces {
        put_piece(*piece, &mut put);
    }
    Ok(len)
}

/// How many bytes the pieces have, where that is at most the room.
fn len_within(pieces: &[Piece], room: usize) -> Result<usize, Full>
    ensures fits { IfOk result (λ n. (n ≡ length (pieces_bytes pieces.now)) × (n ≤ room)) }
    ensures full { OnErr result (room < length (pieces_bytes pieces.now)) }
{
    let mut len = 0;
    for piece in pieces {
        let more = piece_len(*piece);
        if room - len < more {
            return Err(Full);
        }
        len += more;
    }
    Ok(len)
}

fn piece_len(piece: Piece) -> usize
    ensures { result ≡ length (piece_bytes piece.entry) }
{
    match piece {
        Piece::Byte(_) => 1,
        Piece::Half(_) => 2,
        Piece::Word(_) => 4,
        Piece::Time(_) => 8,
        Piece::Bytes(bytes) => bytes.len(),
        Piece::Text(text) => text.len() + 1,
        Piece::Numbers(numbers) => numbers.len() + 2,
    }
}

// Writes a piece that has room.
fn put_piece(piece: Piece, put: &mut Put)
    requires { length (piece_bytes piece) ≤ length (writing put.old).room }
    ensures { writing put.new ≡ with_piece (piece_bytes piece.entry) (writing put.old) }
{
    match piece {
        Piece::Byte(n) => put.u8(n).unwrap(),
        Piece::Half(n) => put.u16(n).unwrap(),
        Piece::Word(n) => put.u32(n).unwrap(),
        Piece::Time(time) => put.nsec(time).unwrap(),
        Piece::Bytes(bytes) => put.bytes(bytes).unwrap(),
        Piece::Text(text) => put_both(text, &[0], put),
        Piece::Numbers(numbers) => put_both(numbers, &[0, 0], put),
    }
}

fn put_both(bytes: &[u8], end: &[u8], put: &mut Put)
    requires { length bytes.now + length end.now ≤ length (writing put.old).room }
    ensures { writing put.new ≡ with_piece (bytes.now ++ end.now) (writing put.old) }
{
    put.bytes(bytes).unwrap();
    put.bytes(end).unwrap();
}
