//! BMP5 messages in a line of `show`.
ghost use Rattle.std.specs.Prelude.{◌≡◌, map};
ghost use Rattle.pb_bmp5.specs.Message.{message_of};
ghost use Rattle.pb_bmp5.specs.declared.message.Mode.TheVariants.{Times};
ghost use Rattle.pb_io.specs.Page.{Adds, printing};
ghost use Rattle.pb_show.specs.Inside.{key_view};
ghost use Rattle.pb_show.specs.MessageText.{bmp5_text, named_text, keys_text, mode_keys, answer_keys, shown_bmp5, is_malformed_bmp5};

use crate::message::{Key, push_keys, push_named, push_refusal};
use crate::value::Shown;
use pb_base::Nsec;
use pb_bmp5::{Bmp5, Mode};
use pb_io::{Page, Sink};

/// Adds a BMP5 message; whether it is malformed.
#[tactic(auto, unfolding(crate::specs::MessageText::shown_bmp5, crate::specs::MessageText::is_malformed_bmp5))]
pub fn push_bmp5<O: Sink>(page: &mut Page, message: &[u8], out: &mut O) -> bool
    ensures text { Adds (shown_bmp5 message.now) (printing O.Sink page.old out.old)
        (printing O.Sink page.new out.new) }
    ensures damaged { result ≡ is_malformed_bmp5 message.now }
{
    match pb_bmp5::read(message) {
        Ok(read) => {
            push_read(page, read, out);
            false
        }
        Err(fault) => push_refusal(page, message, fault, out),
    }
}

fn push_read<O: Sink>(page: &mut Page, message: Bmp5, out: &mut O)
    ensures { Adds (bmp5_text (message_of message.entry)) (printing O.Sink page.old out.old)
        (printing O.Sink page.new out.new) }
{
    match message {
        Bmp5::Collect {
            tran,
            code,
            mode,
            table,
            sig,
            fields,
        } => {
            push_named(
                page,
                b"collect",
                tran,
                &[
                    Key(b"code", Shown::Half(code)),
                    Key(b"mode", Shown::Mode(mode)),
                    Key(b"table", Shown::Half(table.0)),
                    Key(b"sig", Shown::Signature(sig)),
                ],
                out,
            );
            push_parameters(page, mode, out);
            push_keys(page, &[Key(b"fields", Shown::Numbers(fields))], out);
        }
        Bmp5::CollectReply { tran, resp, bytes } => push_answer(
            page,
            b"collect-reply",
            (tran, resp),
            &[Key(b"bytes", Shown::Bytes(bytes))],
            out,
        ),
        Bmp5::Clock { tran, code, adjust } => push_named(
            page,
            b"clock",
            tran,
            &[
                Key(b"code", Shown::Half(code)),
                Key(b"adjust", Shown::Time(adjust)),
            ],
            out,
        ),
        Bmp5::ClockReply { tran, resp, time } => push_answer(
            page,
            b"clock-reply",
            (tran, resp),
            &[Key(b"time", Shown::Time(time))],
            out,
        ),
        Bmp5::Stats { tran, code } => push_named(
            page,
            b"stats",
            tran,
            &[Key(b"code", Shown::Half(code))],
            out,
        ),
        Bmp5::StatsReply {
            tran,
            resp,
            osver,
            ossig,
            serial,
            powerup,
            state,
            prog,
            progsig,
            time,
            result,
        } => push_answer(
            page,
            b"stats-reply",
            (tran, resp),
            &[
                Key(b"osver", Shown::Name(osver)),
                Key(b"ossig", Shown::Half(ossig)),
                Key(b"serial", Shown::Name(serial)),
                Key(b"powerup", Shown::Name(powerup)),
                Key(b"state", Shown::Byte(state)),
                Key(b"prog", Shown::Name(prog)),
                Key(b"progsig", Shown::Half(progsig)),
                Key(b"time", Shown::Time(time)),
                Key(b"result", Shown::Name(result)),
            ],
            out,
        ),
        Bmp5::Download {
            tran,
            code,
            name,
            attr,
            close,
            offset,
            bytes,
        } => push_named(
            page,
            b"download",
            tran,
            &[
                Key(b"code", Shown::Half(code)),
                Key(b"name", Shown::Name(name)),
                Key(b"attr", Shown::Byte(attr)),
                Key(b"close", Shown::Byte(close)),
                Key(b"offset", Shown::Word(offset)),
                Key(b"bytes", Shown::Bytes(bytes)),
            ],
            out,
        ),
        Bmp5::DownloadReply { tran, resp, offset } => push_answer(
            page,
            b"download-reply",
            (tran, resp),
            &[Key(b"offset", Shown::Word(offset))],
            out,
        ),
        Bmp5::Upload {
            tran,
            code,
            name,
            close,
            offset,
            swath,
        } => push_named(
            page,
            b"upload",
            tran,
            &[
                Key(b"code", Shown::Half(code)),
                Key(b"name", Shown::Name(name)),
                Key(b"close", Shown::Byte(close)),
                Key(b"offset", Shown::Word(offset)),
                Key(b"swath", Shown::Half(swath)),
            ],
            out,
        ),
        Bmp5::UploadReply {
            tran,
            resp,
            offset,
            bytes,
        } => push_answer(
            page,
            b"upload-reply",
            (tran, resp),
            &[
                Key(b"offset", Shown::Word(offset)),
                Key(b"bytes", Shown::Bytes(bytes)),
            ],
            out,
        ),
        Bmp5::Wait {
            tran,
            kind,
            seconds,
        } => push_named(
            page,
            b"wait",
            tran,
            &[
                Key(b"kind", Shown::Byte(kind)),
                Key(b"seconds", Shown::Half(seconds)),
            ],
            out,
        ),
    }
}

// A reply, by its transaction and its response code: its keys follow a code of 0.
fn push_answer<O: Sink>(page: &mut Page, name: &[u8], head: (u8, u8), keys: &[Key], out: &mut O)
    ensures { Adds (named_text name.now head.0 (answer_keys head.1 (map key_view keys.now)))
        (printing O.Sink page.old out.old) (printing O.Sink page.new out.new) }
{
    push_named(
        page,
        name,
        head.0,
        &[Key(b"resp", Shown::Byte(head.1))],
        out,
    );
    if head.1 == 0 {
        push_keys(page, keys, out);
    }
}

fn push_parameters<O: Sink>(page: &mut Page, mode: Mode, out: &mut O)
    ensures { Adds (keys_text (mode_keys mode)) (printing O.Sink page.old out.old)
        (printing O.Sink page.new out.new) }
{
    match mode {
        Mode::All => push_keys(page, &[], out),
        Mode::From(p1) | Mode::Newest(p1) => push_keys(page, &[Key(b"p1", Shown::Word(p1))], out),
        Mode::Range(p1, p2) | Mode::Part(p1, p2) => {
            push_keys(
                page,
                &[Key(b"p1", Shown::Word(p1)), Key(b"p2", Shown::Word(p2))],
                out,
            )
        }
        Mode::Times(p1, p2) => push_times(page, p1, p2, out),
    }
}

fn push_times<O: Sink>(page: &mut Page, p1: Nsec, p2: Nsec, out: &mut O)
    ensures { Adds (keys_text (mode_keys (Times p1 p2))) (printing O.Sink page.old out.old)
        (printing O.Sink page.new out.new) }
{
    push_keys(
        page,
        &[Key(b"p1", Shown::Time(p1)), Key(b"p2", Shown::Time(p2))],
        out,
    );
}
