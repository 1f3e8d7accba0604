//! Writes a message.
ghost use Rattle.std.specs.Prelude.{IfOk, OnErr};
ghost use Rattle.pb_base.specs.Put.{IsWritten, DoesNotFit};
ghost use Rattle.pb_ctrl.specs.Message.{message_of, Valid, InRange, message_bytes};

use crate::failure::write_failure;
use crate::hello::{Greeting, write_bare, write_greeting};
use crate::message::{BYE, Ctrl, HELLO, HELLO_REPLY, HELLO_REQUEST};
use crate::settings::{
    write_get_settings, write_get_settings_reply, write_set_settings, write_set_settings_reply,
};
use pb_base::Full;

/// Writes a PakCtrl message to the front of `out`, and answers how many bytes it has. Where it doesn't fit nothing is
/// written.
pub fn write(message: &Ctrl, out: &mut [u8]) -> Result<usize, Full>
    requires { Valid (message_of message.now) }
    ensures written { IfOk result (IsWritten (message_bytes (message_of message.now)) out.old out.new) }
    ensures full { OnErr result (DoesNotFit (message_bytes (message_of message.now)) out.old out.new) }
    // So what was written reads as this message.
    ensures in_range { InRange (message_of message.now) }
{
    match *message {
        Ctrl::Hello {
            tran,
            router,
            metric,
            verify,
        } => write_greeting(
            HELLO,
            tran,
            Greeting {
                router,
                metric,
                verify,
            },
            out,
        ),
        Ctrl::HelloReply {
            tran,
            router,
            metric,
            verify,
        } => write_greeting(
            HELLO_REPLY,
            tran,
            Greeting {
                router,
                metric,
                verify,
            },
            out,
        ),
        Ctrl::Bye { tran } => write_bare(BYE, tran, out),
        Ctrl::HelloRequest { tran } => write_bare(HELLO_REQUEST, tran, out),
        Ctrl::Failure {
            tran,
            err,
            proto,
            dst,
            hops,
            src,
            carried,
        } => write_failure(tran, err, (proto, dst), (hops, src), carried, out),
        Ctrl::GetSettings { tran, code, first } => write_get_settings(tran, code, first, out),
        Ctrl::GetSettingsReply {
            tran,
            outcome,
            more,
            settings,
        } => write_get_settings_reply(tran, outcome, more, settings, out),
        Ctrl::SetSettings {
            tran,
            code,
            settings,
        } => write_set_settings(tran, code, settings, out),
        Ctrl::SetSettingsReply {
            tran,
            outcome,
            number,
        } => write_set_settings_reply(tran, outcome, number, out),
    }
}
