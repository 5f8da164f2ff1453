// Document 01, "The plan printer": the line of a plan record, and the lines of records one behind
// another, put into a lent buffer.
#![tactic(auto)]

ghost use Rattle.std.specs.Prelude.{◌≡◌, true, [], ◌∷◌, ◌++◌, ◌*◌, ◌≤◌, length};
ghost use Rattle.text.specs.Decimal.{decimal, spaced};
ghost use Rattle.text.specs.Written.{Written};
ghost use Rattle.refusal.specs.Refusal.{number_of};
ghost use Rattle.plan.specs.Plan.{most_steps};
ghost use Rattle.plan.specs.Rules.{is_good};
ghost use Rattle.plan_line.specs.Line.{most_line, head_of, numbers_of, refused_word, line_of};
ghost use Rattle.plan_line.specs.Records.{records_in, lines_of};

use arrayvec::ArrayVec;
use plan::Plan;
use refusal::Refusal;

// The most bytes of a line, and so the length that the functions below ask for. A buffer of the type
// `[u8; MOST_LINE]` would ask for that length exactly, which is more.
pub const MOST_LINE: usize = 378;

// The numbers of a line: at most eighteen, of 21 bytes each.
type Numbers = ArrayVec<u64, 18>;

// The numbers before the pairs: four, and the extra fields if they are read.
#[tactic(auto, unfolding(crate::specs::Line::head_of))]
fn head_of(p: Plan) -> Numbers
    ensures { result.items ≡ head_of p }
{
    let mut numbers = Numbers::new();
    numbers.push(u64::from(p.start));
    numbers.push(u64::from(p.end));
    numbers.push(u64::from(p.steps));
    numbers.push(u64::from(p.cycle_word()));
    if p.has_extra() {
        numbers.push(u64::from(p.extra_1));
        numbers.push(u64::from(p.extra_2));
    }
    numbers
}

// The numbers of a plan's line.
fn numbers_of(p: Plan) -> Numbers
    requires { p.steps ≤ most_steps }
    ensures value { result.items ≡ numbers_of p }
    ensures some { (1 ≤ length result.items) × (length result.items ≤ 18) }
{
    let mut numbers = head_of(p);
    let read = usize::from(p.steps);
    for (width, price) in p.widths.iter().zip(&p.prices[..read]) {
        numbers.push(u64::from(width.0));
        numbers.push(price.0);
    }
    numbers
}

// The line of a plan that was read, and so is a good one: the plan is a C struct, whose type cannot say it.
fn plan_line(p: Plan, out: &mut [u8]) -> usize
    requires { (is_good p ≡ true) × (most_line ≤ length out.old) }
    ensures { Written (spaced (numbers_of p) ++ (10 ∷ [])) most_line out.old result out.new }
{
    text::put_numbers(numbers_of(p).as_slice(), out)
}

// The line of a refusal. `replay_replies` has its own, by crate `text_writer`, which prints units of a
// meter: the lines here are plain numbers, so this crate does without it.
fn refusal_line(refusal: Refusal, out: &mut [u8]) -> usize
    requires { most_line ≤ length out.old }
    ensures { Written (refused_word ++ (decimal (number_of refusal) ++ (10 ∷ []))) most_line out.old result out.new }
{
    let at = text::put_bytes(b"refused ", out);
    at + text::put_item(u64::from(u8::from(refusal)), b'\n', &mut out[at..])
}

// The line of a record, a slice of any length.
pub fn line(s: &[u8], out: &mut [u8]) -> usize
    requires { most_line ≤ length out.old }
    ensures { Written (line_of s.now) most_line out.old result out.new }
{
    match plan_record::read(s) {
        Ok(plan) => plan_line(plan, out),
        Err(refusal) => refusal_line(refusal, out),
    }
}

// The lines of all the records in s, that stand one behind another; the last may be short.
#[tactic(auto, unfolding(crate::specs::Records::records_in))]
pub fn lines(s: &[u8], out: &mut [u8]) -> usize
    requires { most_line * records_in s.now ≤ length out.old }
    ensures { Written (lines_of s.now) (length out.old) out.old result out.new }
{
    let mut at = 0;
    for record in s.chunks(plan_record::LENGTH) {
        at += line(record, &mut out[at..]);
    }
    at
}
