//! Texts of any length, added a step at a time.
ghost use Rattle.std.specs.Prelude.{◌≤◌, length};
ghost use Rattle.pb_io.specs.Page.{Adds, printing};
ghost use Rattle.pb_value.specs.Escape.{name_text};
ghost use Rattle.pb_value.specs.Hex.{hex};

use pb_io::{Page, Sink};
use pb_value::{ESCAPED_MAX, escape_into, hex_digits_into};

/// How many bytes are written in hexadecimal at once.
const STEP: usize = 128;

/// How many bytes of a name are escaped at once. Most names are short, and room for them is cleared each time.
const NAME_STEP: usize = 16;

/// Adds bytes in hexadecimal, two upper-case digits each.
pub fn push_hex<O: Sink>(page: &mut Page, bytes: &[u8], out: &mut O)
    ensures { Adds (hex bytes.now) (printing O.Sink page.old out.old) (printing O.Sink page.new out.new) }
{
    let mut left = bytes;
    while !left.is_empty() {
        let (chunk, rest) = left.split_at(left.len().min(STEP));
        push_digits(page, chunk, out);
        left = rest;
    }
}

fn push_digits<O: Sink>(page: &mut Page, bytes: &[u8], out: &mut O)
    requires { length bytes.now ≤ STEP }
    ensures { Adds (hex bytes.now) (printing O.Sink page.old out.old) (printing O.Sink page.new out.new) }
{
    let mut digits = [0; 2 * STEP];
    let len = 2 * bytes.len();
    hex_digits_into(bytes, &mut digits[..len]);
    page.push(&digits[..len], out);
}

/// Adds a name, escaped as [`pb_value::escape_into`] does: of any length.
pub fn push_escaped<O: Sink>(page: &mut Page, name: &[u8], out: &mut O)
    ensures { Adds (name_text name.now) (printing O.Sink page.old out.old)
        (printing O.Sink page.new out.new) }
{
    let mut left = name;
    while !left.is_empty() {
        let (chunk, rest) = left.split_at(left.len().min(NAME_STEP));
        push_characters(page, chunk, out);
        left = rest;
    }
}

fn push_characters<O: Sink>(page: &mut Page, name: &[u8], out: &mut O)
    requires { length name.now ≤ NAME_STEP }
    ensures { Adds (name_text name.now) (printing O.Sink page.old out.old)
        (printing O.Sink page.new out.new) }
{
    let mut characters = [0; ESCAPED_MAX * NAME_STEP];
    let len = escape_into(name, &mut characters).unwrap();
    page.push(&characters[..len], out);
}
