//! Counts of failed calls.
ghost use Rattle.std.specs.Prelude.{◌≡◌, ◌≤◌, MatchResult, IsErr, IsTrue, is_err, true};
ghost use Rattle.pb_io.specs.Faults.{HasCause, Rose};

use pb_io::Failed;
use std::io::{self, ErrorKind};

/// The result of a call to the host; a failure is counted.
pub fn counted<T>(faults: &mut u64, outcome: io::Result<T>) -> Result<T, Failed>
    ensures same { MatchResult outcome (λ value. result ≡ Ok value) (λ _. IsErr result) }
    ensures cause { HasCause faults.old faults.new result }
{
    match outcome {
        Ok(value) => Ok(value),
        Err(_) => Err(refused(faults)),
    }
}

/// Counts a failure.
pub fn refused(faults: &mut u64) -> Failed
    ensures later { faults.old ≤ faults.new }
    ensures rose { Rose faults.old faults.new }
{
    *faults = faults.saturating_add(1);
    Failed
}

/// Whether a call failed with an error of this kind.
pub fn failed_as<T>(outcome: &io::Result<T>, kind: ErrorKind) -> bool
    ensures { IsTrue result → is_err outcome.now ≡ true }
{
    match outcome {
        Ok(_) => false,
        Err(error) => error.kind() == kind,
    }
}
