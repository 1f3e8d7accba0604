//! Where bytes go.
ghost use Rattle.std.specs.Prelude.{ℕ, ◌<◌, ◌≤◌, List, length, Option, IfOk, OnOk, OnErr};
ghost use Rattle.std.specs.Io.KnownBytes.{Appends};
ghost use Rattle.pb_io.specs.Faults.{HasCause};
ghost use Rattle.pb_io.specs.Sink.{Writes, AppendsPrefix};

use crate::Failed;

/// Where bytes go.
pub trait Sink {
    /// The bytes that were written, where the sink knows them.
    ghost written: { Self → Option (List ℕ) };

    /// How often a write has failed. The count doesn't fall, and stands still at 2^64 - 1.
    ghost write_faults: { Self → ℕ };

    /// Takes a prefix of `from`, and answers how many bytes it took: at least one where `from` isn't empty.
    fn write(&mut self, from: &[u8]) -> Result<usize, Failed>
        ensures bound { IfOk result (λ n. n ≤ length from.now) }
        ensures some { IfOk result (λ n. 0 < length from.now → 0 < n) }
        ensures bytes { Writes (written self.old) (written self.new) from.now result }
        ensures cause { HasCause (write_faults self.old) (write_faults self.new) result };
}

/// Writes all of `text`. Where a write fails, a prefix of it was written.
pub fn put_all<O: Sink>(out: &mut O, text: &[u8]) -> Result<(), Failed>
    ensures all { OnOk result (Appends (O.written out.old) (O.written out.new) text.now) }
    ensures prefix { OnErr result (AppendsPrefix (O.written out.old) (O.written out.new) text.now) }
    ensures cause { HasCause (O.write_faults out.old) (O.write_faults out.new) result }
{
    let mut done = 0;
    while done < text.len() {
        done += out.write(&text[done..])?;
    }
    Ok(())
}
