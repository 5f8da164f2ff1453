// Document 01, "Plan record (Table C.1)", "Read a plan", "Write a plan" and the query "record in
// force": 66 bytes, two decimal digits a byte, high digit first.
#![tactic(auto)]

ghost use Rattle.std.specs.Prelude.{◌≡◌, ◌+◌, ◌≤◌, ◌<◌, length};
ghost use Rattle.plan.specs.Plan.{most_steps, six};
ghost use Rattle.plan_record.specs.Digits.{number_of, quad_of, quad_at, four_bytes};
ghost use Rattle.plan_record.specs.Fields.{widths_of, prices_of, fields_of, eight_bytes, pair_bytes, bytes_of};
ghost use Rattle.plan_record.specs.PlanRecord.{read_of, write_answer, written};
ghost use Rattle.plan_record.specs.Choice.{one_in_force, choice_of, part_chosen, part_of, handed};

use plan::Plan;
use refusal::{Refusal, need};
use std::array;
use units::{Hundredths, TenThousandths};

// The bytes of a record.
pub const LENGTH: usize = 66;

// Which of two records. Only its shape is that of slots' `SlotName` and records' `Shelf`; it names
// another thing.
#[derive(Clone, Copy, PartialEq, Eq)]
pub enum Which {
    First,
    Second,
}

// The number that the digits of four bytes say; no conversion of a type.
fn number(a: u8, b: u8, c: u8, d: u8) -> u32
    ensures { result ≡ number_of a b c d }
{
    ((digits::pair(a) * 100 + digits::pair(b)) * 100 + digits::pair(c)) * 100 + digits::pair(d)
}

// The number of four bytes; 100,000,000 where a digit is above 9, so that one test of refusal 4
// serves reading and writing.
#[tactic(auto, unfolding(crate::specs::Digits::quad_of))]
fn quad(a: u8, b: u8, c: u8, d: u8) -> u32
    ensures { result ≡ quad_of a b c d }
{
    let low = digits::two_digits(c) & digits::two_digits(d);
    if digits::two_digits(a) & (digits::two_digits(b) & low) {
        return number(a, b, c, d);
    }
    100_000_000
}

// The number in the field that begins at byte `at`; `quad(&s[at..at + 4])` would name the place
// twice.
fn quad_at(s: &[u8], at: usize) -> u32
    requires { at + 4 ≤ length s.now }
    ensures { result ≡ quad_at s.now at }
{
    quad(s[at], s[at + 1], s[at + 2], s[at + 3])
}

// The six volumes, and the six prices. One function for both would take a place and a closure, and
// be no shorter.
fn widths_of(s: &[u8; LENGTH]) -> [Hundredths; Plan::MOST_STEPS]
    ensures { result ≡ widths_of s.now }
{
    array::from_fn(|i| Hundredths(quad_at(s, 18 + 8 * i)))
}

fn prices_of(s: &[u8; LENGTH]) -> [TenThousandths; Plan::MOST_STEPS]
    ensures { result ≡ prices_of s.now }
{
    array::from_fn(|i| TenThousandths(quad_at(s, 22 + 8 * i) as u64))
}

// The fields of a record as it stands.
#[tactic(auto, unfolding(crate::specs::Fields::fields_of))]
fn fields_of(s: &[u8; LENGTH]) -> Plan
    ensures { result ≡ fields_of s.now }
{
    Plan {
        start: quad_at(s, 0),
        end: quad_at(s, 4),
        steps: s[8],
        word: s[9],
        extra_1: quad_at(s, 10),
        extra_2: quad_at(s, 14),
        widths: widths_of(s),
        prices: prices_of(s),
    }
}

// Reads a plan from a lent slice of any length: its read fields, or 1 to 7. `Plan` is another
// crate's type, so no `TryFrom` stands here.
#[tactic(auto, unfolding(crate::specs::PlanRecord::read_of))]
pub fn read(s: &[u8]) -> Result<Plan, Refusal>
    ensures { result ≡ read_of s.now }
{
    let p = fields_of(s.as_array().ok_or(Refusal::RecordLength)?);
    p.plan_refusal()?;
    Ok(p.cleared())
}

// The four bytes of a number of eight digits.
fn four_bytes(x: u64) -> [u8; 4]
    ensures { result ≡ four_bytes x }
{
    [
        digits::bcd(x / 1_000_000 % 100),
        digits::bcd(x / 10_000 % 100),
        digits::bcd(x / 100 % 100),
        digits::bcd(x % 100),
    ]
}

// The bytes of two numbers, one behind the other.
#[tactic(auto, unfolding(crate::specs::Fields::eight_bytes))]
fn eight_bytes(x: u64, y: u64) -> [u8; 8]
    ensures { result ≡ eight_bytes x y }
{
    let mut bytes = [0; 8];
    bytes[..4].copy_from_slice(&four_bytes(x));
    bytes[4..].copy_from_slice(&four_bytes(y));
    bytes
}

// The bytes of pair i: its volume and its price, from the two arrays that the C header lays out.
fn pair_bytes(p: Plan, i: usize) -> [u8; 8]
    requires { i < most_steps }
    ensures { result ≡ pair_bytes p i }
{
    eight_bytes(p.widths[i].0 as u64, p.prices[i].0)
}

// The bytes of the six pairs, each named: a loop over them takes more instructions, and of
// `array::from_fn` nothing is known where its closure answers an array.
fn pairs_of(p: Plan) -> [[u8; 8]; Plan::MOST_STEPS]
    ensures { result ≡ six (pair_bytes p) }
{
    [
        pair_bytes(p, 0),
        pair_bytes(p, 1),
        pair_bytes(p, 2),
        pair_bytes(p, 3),
        pair_bytes(p, 4),
        pair_bytes(p, 5),
    ]
}

// The bytes of a plan, every field of it.
#[tactic(auto, unfolding(crate::specs::Fields::bytes_of, crate::specs::Fields::eight_bytes))]
fn bytes_of(p: Plan) -> [u8; LENGTH]
    ensures { result ≡ bytes_of p }
{
    let mut bytes = [0; LENGTH];
    bytes[..8].copy_from_slice(&eight_bytes(p.start as u64, p.end as u64));
    bytes[8] = p.steps;
    bytes[9] = p.word;
    bytes[10..18].copy_from_slice(&eight_bytes(p.extra_1 as u64, p.extra_2 as u64));
    bytes[18..].copy_from_slice(pairs_of(p).as_flattened());
    bytes
}

// Writes a plan into a lent buffer: its read fields and zero elsewhere; or 26, then 2 to 7, and the
// buffer stands as before.
#[tactic(auto, unfolding(crate::specs::PlanRecord::write_answer, crate::specs::PlanRecord::written))]
pub fn write(p: Plan, out: &mut [u8]) -> Result<(), Refusal>
    ensures { (result ≡ write_answer p out.old) × (out.new ≡ written p out.old) }
{
    need(out.len() == LENGTH, Refusal::BufferLength)?;
    p.plan_refusal()?;
    out.copy_from_slice(&bytes_of(p.cleared()));
    Ok(())
}

// The one of two that is in force; 12 where both are, 24 where neither is.
fn one_in_force(first: bool, second: bool) -> Result<Which, Refusal>
    ensures { result ≡ one_in_force first second }
{
    match (first, second) {
        (true, true) => Err(Refusal::Overlap),
        (true, false) => Ok(Which::First),
        (false, true) => Ok(Which::Second),
        (false, false) => Err(Refusal::NoPlan),
    }
}

// Which of two lent records is in force on a date. Here and in the next two functions two lent slices
// go in: the form that document 01 names for this query, with one of the two handed back.
#[tactic(auto, unfolding(crate::specs::Choice::choice_of))]
pub fn choose(first: &[u8], second: &[u8], date: u32) -> Result<Which, Refusal>
    ensures { result ≡ choice_of first.now second.now date }
{
    need(calendar::is_date(date), Refusal::Stamp)?;
    let a = read(first)?;
    let b = read(second)?;
    one_in_force(a.in_force(date), b.in_force(date))
}

// The record in force on a date, the first or the second itself; or the refusal.
pub fn part_in_force<'a>(first: &'a [u8], second: &'a [u8], date: u32) -> Result<&'a [u8], Refusal>
    ensures { result ≡ part_chosen (choice_of first.now second.now date) first.entry second.entry }
{
    match choose(first, second, date)? {
        Which::First => Ok(first),
        Which::Second => Ok(second),
    }
}

// The record in force on a date, an empty part where `choose` refuses; `part_in_force` tells the
// refusal.
pub fn in_force<'a>(first: &'a [u8], second: &'a [u8], date: u32) -> &'a [u8]
    ensures { (result ≡ handed (choice_of first.now second.now date) first.entry second.entry result)
        × (result.now ≡ part_of (choice_of first.now second.now date) first.now second.now) }
{
    part_in_force(first, second, date).unwrap_or(&first[0..0])
}
