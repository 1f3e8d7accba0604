//! PakCtrl messages in a line of `show`.
ghost use Rattle.std.specs.Prelude.{◌≡◌};
ghost use Rattle.pb_ctrl.specs.Message.{message_of};
ghost use Rattle.pb_io.specs.Page.{Adds, printing};
ghost use Rattle.pb_show.specs.MessageText.{ctrl_text, greeting_keys, named_text, shown_ctrl, is_malformed_ctrl};

use crate::message::{Key, push_named, push_refusal};
use crate::value::Shown;
use pb_ctrl::Ctrl;
use pb_io::{Page, Sink};

/// Adds a PakCtrl message; whether it is malformed.
#[tactic(auto, unfolding(crate::specs::MessageText::shown_ctrl, crate::specs::MessageText::is_malformed_ctrl))]
pub fn push_ctrl<O: Sink>(page: &mut Page, message: &[u8], out: &mut O) -> bool
    ensures text { Adds (shown_ctrl message.now) (printing O.Sink page.old out.old)
        (printing O.Sink page.new out.new) }
    ensures damaged { result ≡ is_malformed_ctrl message.now }
{
    match pb_ctrl::read(message) {
        Ok(read) => {
            push_read(page, read, out);
            false
        }
        Err(fault) => push_refusal(page, message, fault, out),
    }
}

fn push_read<O: Sink>(page: &mut Page, message: Ctrl, out: &mut O)
    ensures { Adds (ctrl_text (message_of message.entry)) (printing O.Sink page.old out.old)
        (printing O.Sink page.new out.new) }
{
    match message {
        Ctrl::Hello {
            tran,
            router,
            metric,
            verify,
        } => push_greeting(page, b"hello", tran, (router, metric, verify), out),
        Ctrl::HelloReply {
            tran,
            router,
            metric,
            verify,
        } => push_greeting(page, b"hello-reply", tran, (router, metric, verify), out),
        Ctrl::Bye { tran } => push_named(page, b"bye", tran, &[], out),
        Ctrl::HelloRequest { tran } => push_named(page, b"hello-request", tran, &[], out),
        Ctrl::Failure {
            tran,
            err,
            proto,
            dst,
            hops,
            src,
            carried,
        } => push_named(
            page,
            b"failure",
            tran,
            &[
                Key(b"err", Shown::Byte(err)),
                Key(b"proto", Shown::Byte(proto)),
                Key(b"dst", Shown::Half(dst)),
                Key(b"hops", Shown::Byte(hops)),
                Key(b"src", Shown::Half(src)),
                Key(b"carried", Shown::Bytes(carried)),
            ],
            out,
        ),
        Ctrl::GetSettings { tran, code, first } => push_named(
            page,
            b"get-settings",
            tran,
            &[
                Key(b"code", Shown::Half(code)),
                Key(b"first", Shown::Half(first)),
            ],
            out,
        ),
        Ctrl::GetSettingsReply {
            tran,
            outcome,
            more,
            settings,
        } => push_named(
            page,
            b"get-settings-reply",
            tran,
            &[
                Key(b"outcome", Shown::Byte(outcome)),
                Key(b"more", Shown::Byte(more)),
                Key(b"settings", Shown::Settings(settings)),
            ],
            out,
        ),
        Ctrl::SetSettings {
            tran,
            code,
            settings,
        } => push_named(
            page,
            b"set-settings",
            tran,
            &[
                Key(b"code", Shown::Half(code)),
                Key(b"settings", Shown::Settings(settings)),
            ],
            out,
        ),
        Ctrl::SetSettingsReply {
            tran,
            outcome,
            number,
        } => push_named(
            page,
            b"set-settings-reply",
            tran,
            &[
                Key(b"outcome", Shown::Byte(outcome)),
                Key(b"number", Shown::Half(number)),
            ],
            out,
        ),
    }
}

// A hello or its reply: router, metric, verify interval.
fn push_greeting<O: Sink>(page: &mut Page, name: &[u8], tran: u8, keys: (u8, u8, u16), out: &mut O)
    ensures { Adds (named_text name.now tran (greeting_keys keys.0 keys.1 keys.2))
        (printing O.Sink page.old out.old)
        (printing O.Sink page.new out.new) }
{
    push_named(
        page,
        name,
        tran,
        &[
            Key(b"router", Shown::Byte(keys.0)),
            Key(b"metric", Shown::Byte(keys.1)),
            Key(b"verify", Shown::Half(keys.2)),
        ],
        out,
    );
}
