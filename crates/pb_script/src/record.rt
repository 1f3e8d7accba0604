//! The records that a script stores.
ghost use Rattle.std.specs.Prelude.{◌≡◌, ◌≤◌, ◌++◌, OnOk};
ghost use Rattle.pb_script.specs.Station.{value_of, values_of};

use crate::file::put;
use crate::table::Kind;
use pb_base::Memory;

/// The first FP2 value, and how many there are.
const FP2_FIRST: u16 = 0x4000;

const FP2_COUNT: u32 = 4000;

/// The first letter, and how many there are.
const LETTER_FIRST: u8 = b'A';

const LETTER_COUNT: u32 = 26;

/// Adds the first values of record n at the end, so many.
pub(crate) fn put_values(out: &mut Vec<u8>, kind: Kind, n: u32, count: u32) -> Result<(), Memory>
    requires { (n ≤ 1000000) × (count ≤ 16384) }
    ensures { OnOk result (out.new.items ≡ out.old.items ++ values_of kind n count) }
{
    for k in 0..count {
        match put_value(out, kind, n, k) {
            Ok(()) => {}
            Err(fault) => return Err(fault),
        }
    }
    Ok(())
}

// Adds value k of record n at the end.
fn put_value(out: &mut Vec<u8>, kind: Kind, n: u32, k: u32) -> Result<(), Memory>
    requires { (n ≤ 1000000) × (k ≤ 16384) }
    ensures { OnOk result (out.new.items ≡ out.old.items ++ value_of kind n k) }
{
    match kind {
        Kind::Fp2 => {
            let value = FP2_FIRST + ((10 * n + k) % FP2_COUNT) as u16;
            put(out, &value.to_be_bytes())
        }
        Kind::Ascii => put(out, &[LETTER_FIRST + ((n + k) % LETTER_COUNT) as u8]),
    }
}
