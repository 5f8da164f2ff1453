// Plan records: the reader, the writer, and which of two is in force on a date.
ghost use Rattle.std.specs.Prelude.{◌≡◌};
ghost use Rattle.refusal.specs.Refusal.{acceptance_of};
ghost use Rattle.plan_record.specs.PlanRecord.{read_of, write_answer, written};
ghost use Rattle.plan_record.specs.Choice.{choice_of};
ghost use Rattle.harpdapple.specs.Replies.{plan_reply_of, part_reply_of};

use crate::{PartReply, PlanReply};
use plan::Plan;
use refusal::Acceptance;

#[unsafe(no_mangle)]
pub extern "C" fn harpdapple_plan_read(bytes: &[u8]) -> PlanReply
    ensures { result ≡ plan_reply_of (read_of bytes.now) }
{
    PlanReply::from(plan_record::read(bytes))
}

#[unsafe(no_mangle)]
pub extern "C" fn harpdapple_plan_write(plan: &Plan, out: &mut [u8]) -> Acceptance
    ensures { (result ≡ acceptance_of (write_answer plan.now out.old)) × (out.new ≡ written plan.now out.old) }
{
    Acceptance::from(plan_record::write(*plan, out))
}

#[unsafe(no_mangle)]
pub extern "C" fn harpdapple_record_in_force<'a>(
    first: &'a [u8],
    second: &'a [u8],
    date: u32,
) -> PartReply
    ensures { result ≡ part_reply_of (choice_of first.now second.now date) }
{
    PartReply::from(plan_record::choose(first, second, date))
}
