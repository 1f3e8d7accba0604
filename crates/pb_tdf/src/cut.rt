//! How records are cut, by the sums over their fields.
ghost use Rattle.std.specs.Prelude.{◌≡◌};
ghost use Rattle.pb_tdf.specs.View.{is_event};
ghost use Rattle.pb_tdf.specs.Inside.Passing.{summed_layout};

use crate::Uncollectable;
use crate::totals::Totals;
use pb_base::{Layout, Nsec};

/// The layout of records of these fields, in a table of this interval; an interval of no time is an event table's.
pub fn layout_of_sums(totals: Totals, interval: Nsec) -> Result<Layout, Uncollectable>
    ensures { result ≡ summed_layout totals interval }
{
    if totals.uncollectable {
        return Err(Uncollectable);
    }
    Ok(Layout {
        record_len: totals.record_bytes,
        event: is_event_interval(interval),
        interval,
    })
}

fn is_event_interval(interval: Nsec) -> bool
    ensures { result ≡ is_event interval }
{
    interval.sec == 0 && interval.nano == 0
}
