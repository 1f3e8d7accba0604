//! A file that a crash may tear.
ghost use Rattle.std.specs.Prelude.{◌≡◌, ◌+◌, ◌≤◌, length, take, drop, IfOk, OnOk, OnErr, IfSome};
ghost use Rattle.std.specs.Option.{ForSome, option_map};
ghost use Rattle.pb_io.specs.Crash.{max_file_len, overlaid, Torn, Shortened, AriseBy, Within, Changes};
ghost use Rattle.pb_io.specs.Disk.{ReadsOnly};
ghost use Rattle.pb_io.specs.Faults.{HasCause};
ghost use Rattle.pb_io.specs.Settled.{IsSettled};
ghost use Rattle.pb_io.specs.View.{View, IsLawful, Elapses};

use crate::Failed;

/// The greatest length of a file in bytes.
pub const MAX_FILE_LEN: u64 = 1 << 62;

/// A file of at most 2^62 bytes, of which a crash may leave what wasn't synced in any state. Between two syncs each
/// range that was written, appended or cut away may hold any bytes, and the rest stays.
///
/// A disk that knows its file reports it; then the conditions of the calls speak of it. One that doesn't takes any call.
pub trait Disk {
    /// The file, what a crash may leave of it, the count of failed disk calls, the clock, and what the link reports.
    /// Counts don't fall, and stand still at 2^64 - 1.
    ghost view: { Self → View };

    /// The length of the file in bytes.
    fn len(&mut self) -> Result<u64, Failed>
        ensures value { IfOk result (λ n. IfSome (view self.old).file (λ f. n ≡ length f)) }
        ensures bound { IfOk result (λ n. n ≤ max_file_len) }
        ensures disk { ReadsOnly (view self.old) (view self.new) }
        ensures link { (view self.new).link ≡ (view self.old).link }
        ensures time { Elapses (view self.old) (view self.new) }
        ensures cause { HasCause (view self.old).faults (view self.new).faults result };

    /// Fills `to` with the bytes from `at` on, which lie in the file. Where it fails, `to` may hold any bytes.
    fn read_at(&mut self, at: u64, to: &mut [u8]) -> Result<(), Failed>
        requires { ForSome (view self.old).file (λ f. at + length to.old ≤ length f) }
        ensures bytes { OnOk result (IfSome (view self.old).file
            (λ f. to.new ≡ take (length to.old) (drop at f))) }
        ensures disk { ReadsOnly (view self.old) (view self.new) }
        ensures link { (view self.new).link ≡ (view self.old).link }
        ensures time { Elapses (view self.old) (view self.new) }
        ensures cause { HasCause (view self.old).faults (view self.new).faults result };

    /// Writes over what is there from `at` on, and past the end; `at` isn't above the length. A write that would end
    /// after `MAX_FILE_LEN` fails. After a write that fails its range may hold any bytes, and the file may have any length
    /// between the old and the new one.
    fn write_at(&mut self, at: u64, from: &[u8]) -> Result<(), Failed>
        requires { ForSome (view self.old).file (λ f. at ≤ length f) }
        ensures written { OnOk result ((view self.new).file
            ≡ option_map (λ f. overlaid f at from.now) (view self.old).file) }
        ensures bound { OnOk result (at + length from.now ≤ max_file_len) }
        ensures file { Changes (Torn at (length from.now)) (view self.old).file (view self.new).file }
        ensures images { AriseBy (Torn at (length from.now)) (view self.old).image (view self.new).image }
        ensures link { (view self.new).link ≡ (view self.old).link }
        ensures time { Elapses (view self.old) (view self.new) }
        ensures cause { HasCause (view self.old).faults (view self.new).faults result };

    /// Cuts the file to `len` bytes, which isn't above its length. After a cut that fails the file may have any length
    /// between, and any bytes past `len`.
    fn cut(&mut self, len: u64) -> Result<(), Failed>
        requires { ForSome (view self.old).file (λ f. len ≤ length f) }
        ensures shortened { OnOk result ((view self.new).file
            ≡ option_map (λ f. take len f) (view self.old).file) }
        ensures file { Changes (Shortened len) (view self.old).file (view self.new).file }
        ensures images { AriseBy (Shortened len) (view self.old).image (view self.new).image }
        ensures link { (view self.new).link ≡ (view self.old).link }
        ensures time { Elapses (view self.old) (view self.new) }
        ensures cause { HasCause (view self.old).faults (view self.new).faults result };

    /// After it, a crash leaves the file as it reads. Where it fails, nothing more is settled than before.
    fn sync(&mut self) -> Result<(), Failed>
        ensures settled { OnOk result (IsSettled (view self.new)) }
        ensures unsettled { OnErr result (Within (view self.new).image (view self.old).image) }
        ensures file { (view self.new).file ≡ (view self.old).file }
        ensures images { Within (view self.old).image (view self.new).image }
        ensures link { (view self.new).link ≡ (view self.old).link }
        ensures time { Elapses (view self.old) (view self.new) }
        ensures cause { HasCause (view self.old).faults (view self.new).faults result };

    /// What is so of a disk at every moment.
    ghost lawful: { (d : Self) → IsLawful (view d) };
}

// The constant is the definition's.
fn longest_file()
    ensures { MAX_FILE_LEN ≡ max_file_len }
{}
