//! Hello and its reply, which have the same keys, and the messages that have none.
ghost use Rattle.std.specs.Prelude.{◌≡◌, ℕ, ◌<◌, ◌^◌, [], ◌∷◌, ◌++◌, IfOk, OnErr};
ghost use Rattle.std.specs.Int.{w16, to_be_bytes};
ghost use Rattle.pb_base.specs.Put.{IsWritten, DoesNotFit};
ghost use Rattle.pb_layout.specs.Reading.{reading, Gives};
ghost use Rattle.pb_ctrl.specs.Message.{Message, Hello, HelloReply, message_of, greeting};

use crate::message::Ctrl;
use pb_base::{Full, MessageFault};
use pb_layout::{Keys, Piece, write_pieces};

/// The keys of a hello.
#[derive(Clone, Copy)]
pub(crate) struct Greeting {
    pub(crate) router: u8,
    pub(crate) metric: u8,
    pub(crate) verify: u16,
}

pub(crate) fn read_hello<'a>(tran: u8, keys: &mut Keys<'a>) -> Result<Ctrl<'a>, MessageFault>
    ensures { Gives message_of result (reading (greeting (Hello tran)) keys.old) }
{
    match read_greeting(keys) {
        Ok(
            Greeting {
                router,
                metric,
                verify,
            },
        ) => Ok(Ctrl::Hello {
            tran,
            router,
            metric,
            verify,
        }),
        Err(fault) => Err(fault),
    }
}

pub(crate) fn read_hello_reply<'a>(tran: u8, keys: &mut Keys<'a>) -> Result<Ctrl<'a>, MessageFault>
    ensures { Gives message_of result (reading (greeting (HelloReply tran)) keys.old) }
{
    match read_greeting(keys) {
        Ok(
            Greeting {
                router,
                metric,
                verify,
            },
        ) => Ok(Ctrl::HelloReply {
            tran,
            router,
            metric,
            verify,
        }),
        Err(fault) => Err(fault),
    }
}

#[tactic(auto, unfolding(pb_layout::specs::Reading::reading))]
fn read_greeting(keys: &mut Keys) -> Result<Greeting, MessageFault>
    ensures { (message : ℕ → ℕ → ℕ → Message)
        → Gives (λ g. message g.router g.metric g.verify) result (reading (greeting message) keys.old) }
{
    let router = keys.byte()?;
    let metric = keys.byte()?;
    let verify = keys.half()?;
    Ok(Greeting {
        router,
        metric,
        verify,
    })
}

/// Writes a hello or its reply, as `kind` says.
pub(crate) fn write_greeting(
    kind: u8,
    tran: u8,
    greeting: Greeting,
    out: &mut [u8],
) -> Result<usize, Full>
    ensures written { IfOk result
        (IsWritten (kind ∷ tran ∷ greeting.router ∷ greeting.metric ∷ to_be_bytes w16 greeting.verify ++ [])
        out.old out.new) }
    ensures full { OnErr result
        (DoesNotFit (kind ∷ tran ∷ greeting.router ∷ greeting.metric ∷ to_be_bytes w16 greeting.verify ++ [])
        out.old out.new) }
    ensures in_range { (tran < 2 ^ 8) × (greeting.router < 2 ^ 8) × (greeting.metric < 2 ^ 8)
        × (greeting.verify < 2 ^ 16) }
{
    let pieces = [
        Piece::Byte(kind),
        Piece::Byte(tran),
        Piece::Byte(greeting.router),
        Piece::Byte(greeting.metric),
        Piece::Half(greeting.verify),
    ];
    write_pieces(&pieces, out)
}

/// Writes a message without keys.
pub(crate) fn write_bare(kind: u8, tran: u8, out: &mut [u8]) -> Result<usize, Full>
    ensures written { IfOk result (IsWritten (kind ∷ tran ∷ []) out.old out.new) }
    ensures full { OnErr result (DoesNotFit (kind ∷ tran ∷ []) out.old out.new) }
    ensures in_range { tran < 2 ^ 8 }
{
    write_pieces(&[Piece::Byte(kind), Piece::Byte(tran)], out)
}
