//! Where bytes come from.
ghost use Rattle.std.specs.Prelude.{ℕ, ◌≤◌, List, length, Option, IfOk};
ghost use Rattle.pb_io.specs.Faults.{HasCause};
ghost use Rattle.pb_io.specs.Source.{CountsEnds, Reads};

use crate::Failed;

/// Where bytes come from.
pub trait Source {
    /// The bytes that are left, where the source knows them.
    ghost left: { Self → Option (List ℕ) };

    /// How often a read has failed. The count doesn't fall, and stands still at 2^64 - 1.
    ghost read_faults: { Self → ℕ };

    /// How often a read found the end of the input. The count doesn't fall, and stands still at 2^64 - 1.
    ghost ends: { Self → ℕ };

    /// Reads into the first bytes of `to`, and answers how many bytes came. Into a slice that isn't empty it answers 0
    /// only at the end of the input.
    fn read(&mut self, to: &mut [u8]) -> Result<usize, Failed>
        ensures bound { IfOk result (λ n. n ≤ length to.old) }
        ensures bytes { Reads (left self.old) (left self.new) to.new result }
        ensures ends { CountsEnds (ends self.old) (ends self.new) to.old result }
        ensures cause { HasCause (read_faults self.old) (read_faults self.new) result };
}
