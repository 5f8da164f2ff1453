// The queries over a lent meter, and the sum over a lent list.
ghost use Rattle.std.specs.Prelude.{◌≡◌};
ghost use Rattle.units.specs.Display.{shown};
ghost use Rattle.meter.specs.Machine.{state_in};
ghost use Rattle.query.specs.Queries.{step_answer, display_answer, day_answer, month_answer, record_answer, sum_answer};
ghost use Rattle.harpdapple.specs.Replies.{step_reply_of, display_reply_of, placed_at, record_reply_of, HeavyReplied, sum_reply_of};

use crate::{DisplayReply, RecordReply, StepReply, SumReply};
use meter::Meter;
use records::{PlacedRecord, Record, Shelf};
use refusal::Refusal;
use units::{Hundredths, Millionths, Shown};

#[unsafe(no_mangle)]
pub extern "C" fn harpdapple_step(meter: &Meter) -> StepReply
    ensures { result ≡ step_reply_of (step_answer (state_in meter.now)) }
{
    StepReply::from(query::step(meter))
}

#[unsafe(no_mangle)]
pub extern "C" fn harpdapple_display(meter: &Meter) -> DisplayReply
    ensures { result ≡ display_reply_of (display_answer (state_in meter.now)) }
{
    DisplayReply::from(query::display(meter))
}

// What the display shows of any balance.
#[unsafe(no_mangle)]
pub extern "C" fn harpdapple_shown(balance: Millionths) -> Shown
    ensures { result ≡ shown balance }
{
    Shown::from(balance)
}

// Record k with its place, which is k.
fn placed(meter: &Meter, shelf: Shelf, k: usize) -> Result<PlacedRecord, Refusal>
    ensures { result ≡ placed_at k (record_answer shelf (state_in meter.now) k) }
{
    let held = query::record(meter, shelf, k)?;
    Ok(PlacedRecord { place: k, held })
}

// C calls days and months each by a name.
#[unsafe(no_mangle)]
pub extern "C" fn harpdapple_day(meter: &Meter, k: usize) -> RecordReply
    ensures { result ≡ record_reply_of k (day_answer (state_in meter.now) k) }
{
    RecordReply::from(placed(meter, Shelf::Day, k))
}

#[unsafe(no_mangle)]
pub extern "C" fn harpdapple_month(meter: &Meter, k: usize) -> RecordReply
    ensures { result ≡ record_reply_of k (month_answer (state_in meter.now) k) }
{
    RecordReply::from(placed(meter, Shelf::Month, k))
}

#[unsafe(no_mangle)]
pub extern "C" fn harpdapple_heavy(meter: &Meter, volume: Hundredths) -> RecordReply
    ensures { HeavyReplied (state_in meter.now) volume.0 result }
{
    RecordReply::from(query::heavy(meter, volume))
}

// The sum of volumes over a host's list of day records.
#[unsafe(no_mangle)]
pub extern "C" fn harpdapple_sum(days: &[Record]) -> SumReply
    ensures { result ≡ sum_reply_of (sum_answer days.now) }
{
    SumReply::from(query::sum(days))
}
