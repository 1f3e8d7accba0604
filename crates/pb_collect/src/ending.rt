//! How a table ends in a round, and what comes next after a request.
ghost use Rattle.std.specs.Prelude.{◌≡◌, ◌<◌, ◌≤◌, ◌≢◌};
ghost use Rattle.pb_collect.specs.Ends.{Comes, EndsAs, redefined};

use crate::answer::Said;
use crate::progress::Progress;
use pb_ask::Conclusion;
use pb_bmp5::Mode;

/// The response code under which a station says that the table has another signature (BMP5).
pub const REDEFINED: u8 = 7;

/// How a table ended in a round.
#[derive(Clone, Copy, Debug, PartialEq, Eq)]
pub enum End {
    /// The answer taken last said that nothing follows, and no record is partial.
    Done,
    /// A request was sent as often as the limits say, and the quiet ticks came after each sending.
    NoAnswer,
    /// At least 65,536 bytes were heard after the last sending of a request.
    Flooded,
    /// A request wasn't delivered, for the reason of this code.
    Undelivered(u8),
    /// An answer had this response code, neither 0 nor 7.
    Refused(u8),
    /// The table has another signature than `old` at its station, and is collected no more; `told` is that signature,
    /// where it was told.
    Redefined { old: u16, told: Option<u16> },
    /// The requests of the budget were made, and the table would go on.
    Budget,
}

/// What comes next for a table.
#[derive(Clone, Copy, Debug, PartialEq, Eq)]
pub enum Next {
    /// This is asked.
    Ask(Mode),
    /// The table is stopped, and ends as redefined.
    Stop,
    /// The table ends.
    Ends(End),
}
