//! A reply that ends after its response code.
ghost use Rattle.std.specs.Prelude.{[], ◌∷◌, IfOk, OnErr};
ghost use Rattle.pb_base.specs.Put.{IsWritten, DoesNotFit};

use pb_base::Full;
use pb_layout::{Piece, write_pieces};

/// Writes a reply of this type with a response code that isn't 0, after which there are no keys.
pub(crate) fn write_refusal(kind: u8, tran: u8, resp: u8, out: &mut [u8]) -> Result<usize, Full>
    ensures written { IfOk result (IsWritten (kind ∷ tran ∷ resp ∷ []) out.old out.new) }
    ensures full { OnErr result (DoesNotFit (kind ∷ tran ∷ resp ∷ []) out.old out.new) }
{
    write_pieces(
        &[Piece::Byte(kind), Piece::Byte(tran), Piece::Byte(resp)],
        out,
    )
}
