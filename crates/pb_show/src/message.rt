//! Messages in a line of `show`: a name, the transaction, and each key with its value.
ghost use Rattle.std.specs.Prelude.{◌≡◌, [], ◌∷◌, map, drop, codes};
ghost use Rattle.pb_io.specs.Page.{Adds, joined, printing};
ghost use Rattle.pb_show.specs.MessageText.{bytes_text, key_text, keys_text, named_text, message_text, is_damaged_message, unknown_text, refusal_text, is_malformation};
ghost use Rattle.pb_show.specs.Inside.{key_view};

use crate::bmp5::push_bmp5;
use crate::ctrl::push_ctrl;
use crate::text::push_hex;
use crate::value::{Shown, push_bytes, push_shown};
use pb_base::MessageFault;
use pb_io::{Page, Part, Sink};
use pb_packet::{PROTO_BMP5, PROTO_PAKCTRL};

/// A key and its value.
#[derive(Clone, Copy)]
pub struct Key<'a>(pub &'a [u8], pub Shown<'a>);

/// Adds a message's name, its transaction and its keys.
pub fn push_named<O: Sink>(page: &mut Page, name: &[u8], tran: u8, keys: &[Key], out: &mut O)
    ensures { Adds (named_text name.now tran (map key_view keys.now)) (printing O.Sink page.old out.old)
        (printing O.Sink page.new out.new) }
{
    page.put(
        &[
            Part::Text(name),
            Part::Text(b" tran "),
            Part::Number(u64::from(tran)),
        ],
        out,
    );
    push_keys(page, keys, out);
}

/// Adds keys, each after a space.
pub fn push_keys<O: Sink>(page: &mut Page, keys: &[Key], out: &mut O)
    ensures { Adds (keys_text (map key_view keys.now)) (printing O.Sink page.old out.old)
        (printing O.Sink page.new out.new) }
{
    for key in keys {
        push_key(page, *key, out);
    }
}

fn push_key<O: Sink>(page: &mut Page, key: Key, out: &mut O)
    ensures { Adds (key_text (key_view key.entry)) (printing O.Sink page.old out.old)
        (printing O.Sink page.new out.new) }
{
    page.put(
        &[Part::Text(b" "), Part::Text(key.0), Part::Text(b" ")],
        out,
    );
    push_shown(page, key.1, out);
}

/// Adds what is wrong with a message that can't be read; whether it is malformed.
#[tactic(auto, unfolding(crate::specs::MessageText::refusal_text))]
pub fn push_refusal<O: Sink>(
    page: &mut Page,
    message: &[u8],
    fault: MessageFault,
    out: &mut O,
) -> bool
    ensures text { Adds (refusal_text message.now fault) (printing O.Sink page.old out.old)
        (printing O.Sink page.new out.new) }
    ensures damaged { result ≡ is_malformation fault }
{
    match fault {
        MessageFault::UnknownType(kind) => {
            push_unknown(page, kind, rest_of(message), out);
            false
        }
        MessageFault::Malformed { at } => {
            page.put(
                &[Part::Text(b"malformed at "), Part::Number(at as u64)],
                out,
            );
            true
        }
    }
}

fn push_unknown<O: Sink>(page: &mut Page, kind: u8, rest: &[u8], out: &mut O)
    ensures { Adds (unknown_text kind rest.now) (printing O.Sink page.old out.old)
        (printing O.Sink page.new out.new) }
{
    page.push(b"unknown ", out);
    push_hex(page, &[kind], out);
    page.push(b" bytes ", out);
    push_bytes(page, rest, out);
}

// The bytes after the type.
fn rest_of(message: &[u8]) -> &[u8]
    ensures { result.now ≡ drop 1 message.now }
{
    match message {
        [_, rest @ ..] => rest,
        [] => message,
    }
}

/// Adds a message of a protocol; whether it is malformed.
#[tactic(auto, unfolding(crate::specs::MessageText::message_text, crate::specs::MessageText::is_damaged_message))]
pub fn push_message<O: Sink>(page: &mut Page, proto: u8, message: &[u8], out: &mut O) -> bool
    ensures text { Adds (message_text proto message.now) (printing O.Sink page.old out.old)
        (printing O.Sink page.new out.new) }
    ensures damaged { result ≡ is_damaged_message proto message.now }
{
    match proto {
        PROTO_PAKCTRL => push_ctrl(page, message, out),
        PROTO_BMP5 => push_bmp5(page, message, out),
        _ => {
            push_plain(page, message, out);
            false
        }
    }
}

// The message of a protocol that isn't known.
fn push_plain<O: Sink>(page: &mut Page, message: &[u8], out: &mut O)
    ensures { Adds (joined (codes "bytes " ∷ bytes_text message.now ∷ []))
        (printing O.Sink page.old out.old)
        (printing O.Sink page.new out.new) }
{
    page.push(b"bytes ", out);
    push_bytes(page, message, out);
}
