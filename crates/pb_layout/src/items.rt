//! Field numbers and settings, one after another.
ghost use Rattle.std.specs.Prelude.{◌≡◌, ℕ, ◌≤◌, List, length, drop};
ghost use Rattle.std.specs.Int.{w16, from_be_bytes};
ghost use Rattle.std.specs.Iterator.{YieldsFirstBy, item_count};
ghost use Rattle.pb_layout.specs.Kind.{Setting as SettingView};
ghost use Rattle.pb_layout.specs.Lists.{numbers_of, settings_of, first_setting, setting_len};
ghost use Rattle.pb_layout.specs.Inside.{setting_view};

use std::marker::Model;

/// The bytes of a setting's number and length.
const HEAD: usize = 4;

/// The numbers that weren't taken yet.
#[derive(Debug, Drop)]
pub struct Numbers<'a> {
    bytes: &'a [u8],
}

impl<'a> Model for Numbers<'a> {
    ghost Value = { List ℕ };

    ghost view = { λ n. numbers_of n.bytes.now };
}

impl<'a> Numbers<'a> {
    /// The numbers that the bytes are, two bytes each, the higher one first.
    pub fn new(bytes: &'a [u8]) -> Numbers<'a>
        ensures { result ≡ numbers_of bytes.now }
    {
        Numbers { bytes }
    }
}

impl<'a> Iterator for Numbers<'a> {
    type Item = u16;

    ghost next_gives = { YieldsFirstBy (λ n. n) (λ n. n) };

    ghost remaining = { item_count (λ n. n) };

    fn next(&mut self) -> Option<u16> {
        let [high, low, rest @ ..] = self.bytes else {
            return None;
        };
        self.bytes = rest;
        Some(u16::from_be_bytes([*high, *low]))
    }
}

/// A setting of a station: its number, and its bytes.
#[derive(Clone, Copy, Debug, PartialEq, Eq)]
pub struct Setting<'a> {
    pub number: u16,
    pub bytes: &'a [u8],
}

/// The settings that weren't taken yet.
#[derive(Debug, Drop)]
pub struct Settings<'a> {
    bytes: &'a [u8],
}

impl<'a> Model for Settings<'a> {
    ghost Value = { List SettingView };

    ghost view = { λ s. settings_of s.bytes.now };
}

impl<'a> Settings<'a> {
    /// The settings that the bytes are: each a number and a length, both of two bytes, and then as many bytes. What is
    /// too short at the end for a number and a length is none.
    pub fn new(bytes: &'a [u8]) -> Settings<'a>
        ensures { result ≡ settings_of bytes.now }
    {
        Settings { bytes }
    }
}

impl<'a> Iterator for Settings<'a> {
    type Item = Setting<'a>;

    ghost next_gives = { YieldsFirstBy setting_view (λ s. s) };

    ghost remaining = { item_count (λ s. s) };

    fn next(&mut self) -> Option<Setting<'a>> {
        if self.bytes.len() < HEAD {
            return None;
        }
        let (setting, rest) = first_of(self.bytes);
        self.bytes = rest;
        Some(setting)
    }
}

// The first setting, and the bytes after it.
fn first_of(bytes: &[u8]) -> (Setting, &[u8])
    requires { HEAD ≤ length bytes.now }
    ensures first { setting_view result.0 ≡ first_setting bytes.now }
    ensures rest { result.1.now ≡ drop (setting_len bytes.now) bytes.now }
{
    let len = usize::from(half(&bytes[2..4]));
    let setting = Setting {
        number: half(&bytes[..2]),
        bytes: &bytes[HEAD..bytes.len().min(HEAD + len)],
    };
    (setting, &bytes[bytes.len().min(HEAD + len)..])
}

fn half(bytes: &[u8]) -> u16
    requires { length bytes.now ≡ 2 }
    ensures { result ≡ from_be_bytes w16 bytes.now }
{
    u16::from_be_bytes([bytes[0], bytes[1]])
}
