//! The values of a message's keys, as a line of `show` has them.
ghost use Rattle.std.specs.Prelude.{◌≡◌, map, decimal};
ghost use Rattle.pb_io.specs.Page.{Adds, printing};
ghost use Rattle.pb_layout.specs.Inside.{setting_view};
ghost use Rattle.pb_layout.specs.Lists.{numbers_of, settings_of};
ghost use Rattle.pb_value.specs.Escape.{name_text};
ghost use Rattle.pb_show.specs.MessageText.{bytes_text, shown_text, list_text, setting_text, after_comma, or_dash, mode_number, Time};
ghost use Rattle.pb_show.specs.Inside.{shown_view};

use crate::text::{push_escaped, push_hex};
use pb_base::Nsec;
use pb_bmp5::Mode;
use pb_io::{Page, Part, Sink};
use pb_layout::{Numbers, Setting, Settings};

/// The value of a key.
#[derive(Clone, Copy)]
pub enum Shown<'a> {
    /// A byte, in decimal.
    Byte(u8),
    /// A number of two bytes, in decimal.
    Half(u16),
    /// A number of four bytes, in decimal.
    Word(u32),
    /// The number of a mode.
    Mode(Mode),
    /// In four hexadecimal digits.
    Signature(u16),
    /// Its seconds, a dot, and its nanoseconds as they are.
    Time(Nsec),
    /// A text, escaped.
    Name(&'a [u8]),
    /// In hexadecimal.
    Bytes(&'a [u8]),
    /// Numbers of two bytes each, as their bytes.
    Numbers(&'a [u8]),
    /// Settings, as their bytes.
    Settings(&'a [u8]),
}

/// Adds a value.
#[tactic(auto, unfolding(crate::specs::MessageText::shown_text))]
pub fn push_shown<O: Sink>(page: &mut Page, shown: Shown, out: &mut O)
    ensures { Adds (shown_text (shown_view shown.entry)) (printing O.Sink page.old out.old)
        (printing O.Sink page.new out.new) }
{
    match shown {
        Shown::Byte(n) => page.push_decimal(u64::from(n), out),
        Shown::Half(n) => page.push_decimal(u64::from(n), out),
        Shown::Word(n) => page.push_decimal(u64::from(n), out),
        Shown::Mode(mode) => page.push_decimal(number_of(mode), out),
        Shown::Signature(sig) => push_hex(page, &sig.to_be_bytes(), out),
        Shown::Time(time) => push_time(page, time, out),
        Shown::Name(text) => push_name(page, text, out),
        Shown::Bytes(bytes) => push_bytes(page, bytes, out),
        Shown::Numbers(bytes) => push_numbers(page, bytes, out),
        Shown::Settings(bytes) => push_settings(page, bytes, out),
    }
}

fn number_of(mode: Mode) -> u64
    ensures { result ≡ mode_number mode }
{
    match mode {
        Mode::All => 3,
        Mode::From(_) => 4,
        Mode::Newest(_) => 5,
        Mode::Range(..) => 6,
        Mode::Times(..) => 7,
        Mode::Part(..) => 8,
    }
}

#[tactic(auto, unfolding(crate::specs::MessageText::shown_text))]
fn push_time<O: Sink>(page: &mut Page, time: Nsec, out: &mut O)
    ensures { Adds (shown_text (Time time)) (printing O.Sink page.old out.old)
        (printing O.Sink page.new out.new) }
{
    page.put(
        &[
            Part::Signed(time.sec),
            Part::Text(b"."),
            Part::Signed(time.nano),
        ],
        out,
    );
}

/// Adds bytes in hexadecimal, or `-` where there are none.
pub fn push_bytes<O: Sink>(page: &mut Page, bytes: &[u8], out: &mut O)
    ensures { Adds (bytes_text bytes.now) (printing O.Sink page.old out.old)
        (printing O.Sink page.new out.new) }
{
    if bytes.is_empty() {
        page.push(b"-", out);
        return;
    }
    push_hex(page, bytes, out);
}

/// Adds a name, escaped, or `-` where it is empty.
pub fn push_name<O: Sink>(page: &mut Page, name: &[u8], out: &mut O)
    ensures { Adds (or_dash name.now (name_text name.now)) (printing O.Sink page.old out.old)
        (printing O.Sink page.new out.new) }
{
    if name.is_empty() {
        page.push(b"-", out);
        return;
    }
    push_escaped(page, name, out);
}

fn push_numbers<O: Sink>(page: &mut Page, bytes: &[u8], out: &mut O)
    ensures { Adds (list_text (map decimal (numbers_of bytes.now))) (printing O.Sink page.old out.old)
        (printing O.Sink page.new out.new) }
{
    let mut numbers = Numbers::new(bytes);
    let Some(first) = numbers.next() else {
        page.push(b"-", out);
        return;
    };
    page.push_decimal(u64::from(first), out);
    while let Some(number) = numbers.next() {
        page.put(&[Part::Text(b","), Part::Number(u64::from(number))], out);
    }
}

fn push_settings<O: Sink>(page: &mut Page, bytes: &[u8], out: &mut O)
    ensures { Adds (list_text (map setting_text (settings_of bytes.now)))
        (printing O.Sink page.old out.old)
        (printing O.Sink page.new out.new) }
{
    let mut settings = Settings::new(bytes);
    let Some(first) = settings.next() else {
        page.push(b"-", out);
        return;
    };
    push_setting(page, first, out);
    while let Some(setting) = settings.next() {
        push_next_setting(page, setting, out);
    }
}

fn push_next_setting<O: Sink>(page: &mut Page, setting: Setting, out: &mut O)
    ensures { Adds (after_comma (setting_text (setting_view setting.entry)))
        (printing O.Sink page.old out.old)
        (printing O.Sink page.new out.new) }
{
    page.push(b",", out);
    push_setting(page, setting, out);
}

fn push_setting<O: Sink>(page: &mut Page, setting: Setting, out: &mut O)
    ensures { Adds (setting_text (setting_view setting.entry)) (printing O.Sink page.old out.old)
        (printing O.Sink page.new out.new) }
{
    page.put(
        &[Part::Number(u64::from(setting.number)), Part::Text(b":")],
        out,
    );
    push_bytes(page, setting.bytes, out);
}
