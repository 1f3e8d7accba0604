//! The settings of a station: given, and set.
ghost use Rattle.std.specs.Prelude.{◌≡◌, ◌≤◌, ◌+◌, List, [], ◌∷◌, length, ℕ, None, IfSome};
ghost use Rattle.pb_base.specs.Put.{writing, with_piece, IsWritten};
ghost use Rattle.pb_station.specs.Files.{name_max};
ghost use Rattle.pb_station.specs.Settings.{setting, given, settings_in, settings_from, set_one, set_from};
ghost use Rattle.pb_station.specs.Inside.Steps.{Became, IsFirst, WereAllSet};

use crate::device::Device;
use crate::file_slot::NAME_MAX;
use pb_base::Put;

/// The version of a station, as its settings and its statistics give it.
pub(crate) const VERSION: &[u8] = b"sim.1";

/// The most bytes of all settings.
pub(crate) const SETTINGS_BYTES_MAX: usize = 69;

const VERSION_NUMBER: u16 = 1;

const SERIAL_NUMBER: u16 = 2;

const NAME_NUMBER: u16 = 3;

const ADDRESS_NUMBER: u16 = 4;

const CODE_NUMBER: u16 = 5;

/// What a list of settings came to: the outcome is 0 where all were set, else 1 with the number of the first that can't be.
#[derive(Clone, Copy, Debug, PartialEq, Eq)]
pub(crate) struct SetResult {
    pub(crate) outcome: u8,
    pub(crate) number: u16,
}

impl Device {
    /// Writes the settings from this number on, in order, to the front of `out`, and answers how many bytes they have.
    pub(crate) fn settings_into(&self, first: u16, out: &mut [u8; SETTINGS_BYTES_MAX]) -> usize
        ensures written { IsWritten (settings_from first self.now) out.old out.new result }
        ensures short { length self.now.name ≤ name_max }
    {
        let address = self.address.get();
        let mut put = Put::new(out);
        give(first, VERSION_NUMBER, VERSION, &mut put);
        give(
            first,
            SERIAL_NUMBER,
            &u32::from(address).to_be_bytes(),
            &mut put,
        );
        give(first, NAME_NUMBER, &self.name, &mut put);
        give(first, ADDRESS_NUMBER, &address.to_be_bytes(), &mut put);
        give(first, CODE_NUMBER, &self.code.to_be_bytes(), &mut put);
        put.len()
    }

    /// Takes settings in their order, up to the first that can't be set.
    pub(crate) fn set(&mut self, settings: &[u8]) -> SetResult
        ensures { WereAllSet (set_from self.old settings.now) self.new result }
    {
        let mut left = settings;
        // Each setting has bytes, so there are at most as many.
        for _ in 0..settings.len() {
            let Some((number, content, rest)) = first_setting(left) else {
                break;
            };
            if !self.set_one(number, content) {
                return SetResult { outcome: 1, number };
            }
            left = rest;
        }
        SetResult {
            outcome: 0,
            number: 0,
        }
    }

    /// Sets the name or the security code. False where the number is another or the content has a wrong length.
    fn set_one(&mut self, number: u16, content: &[u8]) -> bool
        ensures { Became (set_one self.old (setting number content.now)) self.old self.new result }
    {
        if number == NAME_NUMBER && content.len() <= NAME_MAX {
            self.name.clear();
            self.name.extend_from_slice(content).unwrap();
            return true;
        }
        if number != CODE_NUMBER {
            return false;
        }
        let [high, low] = content else {
            return false;
        };
        self.code = u16::from_be_bytes([*high, *low]);
        true
    }
}

/// The number and the content of the first setting, and the bytes after it.
fn first_setting(left: &[u8]) -> Option<(u16, &[u8], &[u8])>
    ensures found { IfSome result (λ r. IsFirst left.now (setting r.0 r.1.now) r.2.now) }
    ensures none { result ≡ None → (most : ℕ) → settings_in most left.now ≡ [] }
{
    if left.len() < 4 {
        return None;
    }
    let number = u16::from_be_bytes([left[0], left[1]]);
    let rest = &left[4..];
    let len = usize::from(u16::from_be_bytes([left[2], left[3]])).min(rest.len());
    Some((number, &rest[..len], &rest[len..]))
}

/// Writes a setting, where its number is at least `first`.
fn give(first: u16, number: u16, content: &[u8], put: &mut Put)
    requires short { length content.now ≤ name_max }
    requires fits { 4 + length content.now ≤ length (writing put.old).room }
    ensures { writing put.new ≡ with_piece (given first (setting number content.now)) (writing put.old) }
{
    if number < first {
        return;
    }
    put.u16(number).unwrap();
    put.u16(content.len() as u16).unwrap();
    put.bytes(content).unwrap();
}
