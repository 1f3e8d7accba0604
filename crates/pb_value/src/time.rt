//! The text of a time.
ghost use Rattle.std.specs.Prelude.{◌≡◌, ◌<◌, ◌≤◌, ◌++◌, [], ◌==◌, if◌then◌else◌, length, codes, IfOk, OnErr};
ghost use Rattle.pb_base.specs.Put.{IsWritten, DoesNotFit};
ghost use Rattle.pb_base.specs.Time.{time_bytes};
ghost use Rattle.pb_value.specs.TimeText.{digits, date_text, clock_text, part_of, time_text};

use crate::hex::hex_into;
use crate::number::digits;
use crate::text::write_parts;
use jiff_core::civil::Date;
use pb_base::{Full, Nsec};

/// The most bytes of a time's text.
pub const TIME_TEXT_MAX: usize = 29;

/// The seconds of a day.
const DAY: u64 = 86_400;

/// The seconds from the begin of 1900 to that of 1990.
const TO_1990: i64 = 2_840_140_800;

/// The days from the begin of 1900 to that of 1970.
const TO_1970: i64 = 25_567;

/// The nanoseconds of a second.
const NANOS: u32 = 1_000_000_000;

/// A time as `YYYY-MM-DD hh:mm:ss` in the Gregorian calendar, without a zone, followed by `.` and nine digits where
/// its nanoseconds aren't 0; where they aren't 0 to 999,999,999, the 16 hexadecimal digits of its seconds and its
/// nanoseconds (of this project). The answer is the number of bytes; `Full` where they don't fit, and then nothing
/// is written.
pub fn time_into(time: Nsec, out: &mut [u8]) -> Result<usize, Full>
    ensures written { IfOk result (IsWritten (time_text time) out.old out.new) }
    ensures full { OnErr result (DoesNotFit (time_text time) out.old out.new) }
    ensures short { length (time_text time) ≤ TIME_TEXT_MAX }
{
    match part_of_second(time.nano) {
        Some(nano) => {
            // The second is counted from the begin of 1900, so that no time lies before it.
            let second = (i64::from(time.sec) + TO_1990) as u64;
            let date = date((second / DAY) as u32);
            let clock = clock((second % DAY) as u32);
            let fraction = fraction(nano);
            write_parts(&date, &clock, where_any(&fraction, nano), out)
        }
        None => hex_into(&bytes_of(time), out),
    }
}

/// The nanoseconds, where they are less than a second.
fn part_of_second(nano: i32) -> Option<u32>
    ensures { result ≡ part_of nano }
{
    let n = u32::try_from(nano).ok()?;
    if n < NANOS { Some(n) } else { None }
}

fn bytes_of(time: Nsec) -> [u8; 8]
    ensures { result ≡ time_bytes time }
{
    let [a, b, c, d] = time.sec.cast_unsigned().to_be_bytes();
    let [e, f, g, h] = time.nano.cast_unsigned().to_be_bytes();
    [a, b, c, d, e, f, g, h]
}

/// The date of a day since the begin of 1900, and a space.
fn date(day: u32) -> [u8; 11]
    requires { day < 73000 }
    ensures { result ≡ date_text day ++ codes " " }
{
    let date = Date::from_unix_epoch_day(i64::from(day) - TO_1970).unwrap();
    let [a, b, c, d] = digits::<4>(u32::from(date.year.unsigned_abs()));
    let [e, f] = digits::<2>(u32::from(date.month));
    let [g, h] = digits::<2>(u32::from(date.day));
    [a, b, c, d, b'-', e, f, b'-', g, h, b' ']
}

#[tactic(auto, using(std::proofs::lemmas::List::append_assoc), unfolding(crate::specs::TimeText::clock_text))]
/// The time of day of a second of a day.
fn clock(second: u32) -> [u8; 8]
    ensures { result ≡ clock_text second }
{
    let [a, b] = digits::<2>(second / 3600);
    let [c, d] = digits::<2>(second / 60 % 60);
    let [e, f] = digits::<2>(second % 60);
    [a, b, b':', c, d, b':', e, f]
}

/// A dot and nine digits.
fn fraction(nano: u32) -> [u8; 10]
    ensures { result ≡ codes "." ++ digits 9 nano }
{
    let [a, b, c, d, e, f, g, h, i] = digits::<9>(nano);
    [b'.', a, b, c, d, e, f, g, h, i]
}

/// The text of a number that isn't shown where it is 0.
fn where_any(text: &[u8], n: u32) -> &[u8]
    ensures { result.now ≡ (if n == 0 then [] else text.now) }
{
    if n == 0 { &[] } else { text }
}
