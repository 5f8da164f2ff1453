// Document 01, "Dates" and the calendar part of "Days in force and cycles".
#![tactic(auto)]

ghost use Rattle.std.specs.Prelude.{◌≡◌, ◌<◌};
ghost use Rattle.calendar.specs.Date.{is_leap, days_in, is_day, is_date};
ghost use Rattle.calendar.specs.Stamp.{is_stamp, dated, not_before};
ghost use Rattle.calendar.specs.DayNumber.{days_of_months, days_of_years, day_number};
ghost use Rattle.calendar.specs.Cycle.{cycle_named, month_start, quarter_month, quarter_start, year_start, cycle_start, run_of};

use refusal::{Refusal, need};

// The first and the last date of the calendar.
const FIRST_DATE: u32 = 20_000_101;

const LAST_DATE: u32 = 20_991_231;

// A date, YYYYMMDD, and a second of that day.
#[repr(C)]
#[derive(Clone, Copy, PartialEq, Eq, PartialOrd, Ord)]
pub struct Stamp {
    pub date: u32,
    pub second: u32,
}

// What the cycle word of a plan says: the whole time in force, a calendar cycle, the time in force in
// a window of dates, runs of days.
#[derive(Clone, Copy, PartialEq, Eq)]
pub enum Cycle {
    Whole,
    Month,
    Quarter,
    Year,
    Window,
    Runs,
}

impl From<u8> for Cycle {
    ghost from_gives = { λ w c. c ≡ cycle_named w };

    fn from(word: u8) -> Cycle {
        match word {
            1 => Cycle::Month,
            2 => Cycle::Quarter,
            3 => Cycle::Year,
            4 => Cycle::Window,
            5 => Cycle::Runs,
            _ => Cycle::Whole,
        }
    }
}

#[tactic(auto, unfolding(crate::specs::Date::is_leap))]
fn is_leap(y: u32) -> bool
    ensures { result ≡ is_leap y }
{
    y % 4 == 0
}

// A month is a number here and below, as the digits of a date say it.
#[tactic(auto, unfolding(crate::specs::Date::days_in))]
fn days_in(y: u32, m: u32) -> u32
    ensures { result ≡ days_in y m }
{
    match m {
        2 => if is_leap(y) { 29 } else { 28 },
        4 | 6 | 9 | 11 => 30,
        _ => 31,
    }
}

#[tactic(auto, unfolding(crate::specs::Date::is_day))]
fn is_day(y: u32, m: u32, d: u32) -> bool
    ensures { result ≡ is_day y m d }
{
    (1..=12).contains(&m) && (1..=days_in(y, m)).contains(&d)
}

#[tactic(auto, unfolding(crate::specs::Date::is_date))]
pub fn is_date(d: u32) -> bool
    ensures { result ≡ is_date d }
{
    (FIRST_DATE..=LAST_DATE).contains(&d) && is_day(d / 10_000, d / 100 % 100, d % 100)
}

impl Stamp {
    pub const LAST_SECOND: u32 = 86_399;

    #[tactic(auto, unfolding(crate::specs::Stamp::is_stamp))]
    pub fn is_stamp(self) -> bool
        ensures { result ≡ is_stamp self }
    {
        is_date(self.date) && self.second <= Stamp::LAST_SECOND
    }

    // The date, or refusal 8.
    #[tactic(auto, unfolding(crate::specs::Stamp::dated))]
    pub fn read(self) -> Result<u32, Refusal>
        ensures { result ≡ dated self }
    {
        need(self.is_stamp(), Refusal::Stamp)?;
        Ok(self.date)
    }

    // Whether the stamp is not before `last`: the derived order, under a name that says which way.
    #[tactic(auto, unfolding(crate::specs::Stamp::not_before))]
    pub fn not_before(self, last: Stamp) -> bool
        ensures { result ≡ not_before last self }
    {
        last <= self
    }
}

// The days of the first k months of the year y.
#[tactic(auto, unfolding(crate::specs::DayNumber::days_of_months), using(crate::proofs::Lengths::days))]
fn days_of_months(y: u32, k: u32) -> u32
    requires { k < 100 }
    ensures { result ≡ days_of_months y k }
{
    let mut n = 0;
    for m in 0..k {
        n += days_in(y, m + 1);
    }
    n
}

// The days of the k years from 2000 on.
#[tactic(auto, using(crate::proofs::Lengths::days))]
fn days_of_years(k: u32) -> u32
    requires { k < 1_000_000 }
    ensures { result ≡ days_of_years k }
{
    365 * k + (k + 3) / 4
}

// The days from 20000101 to a date.
#[tactic(auto, unfolding(crate::specs::DayNumber::day_number), using(crate::proofs::Lengths::days))]
pub fn day_number(d: u32) -> u32
    ensures { result ≡ day_number d }
{
    let y = d / 10_000;
    let months = (d / 100 % 100).saturating_sub(1);
    let days = (d % 100).saturating_sub(1);
    days_of_years(y.saturating_sub(2000)) + (days_of_months(y, months) + days)
}

#[tactic(auto, unfolding(crate::specs::Cycle::month_start))]
pub fn month_start(d: u32) -> u32
    ensures { result ≡ month_start d }
{
    d / 100 * 100 + 1
}

// Months go by number: document 01 names the form, a match on month ranges.
fn quarter_month(m: u32) -> u32
    ensures { result ≡ quarter_month m }
{
    match m {
        0..=3 => 1,
        4..=6 => 4,
        7..=9 => 7,
        _ => 10,
    }
}

#[tactic(auto, unfolding(crate::specs::Cycle::quarter_start))]
pub fn quarter_start(d: u32) -> u32
    ensures { result ≡ quarter_start d }
{
    d / 10_000 * 10_000 + (quarter_month(d / 100 % 100) * 100 + 1)
}

#[tactic(auto, unfolding(crate::specs::Cycle::year_start))]
pub fn year_start(d: u32) -> u32
    ensures { result ≡ year_start d }
{
    d / 10_000 * 10_000 + 101
}

// The first date of the calendar cycle that a date lies in, 0 for a cycle that is no calendar cycle. It
// stays a number: the laws of cycles use its order.
#[tactic(auto, unfolding(crate::specs::Cycle::cycle_start))]
pub fn cycle_start(cycle: Cycle, d: u32) -> u32
    ensures { result ≡ cycle_start cycle d }
{
    match cycle {
        Cycle::Month => month_start(d),
        Cycle::Quarter => quarter_start(d),
        Cycle::Year => year_start(d),
        _ => 0,
    }
}

// The same by the cycle word as a record has it, any number: one that names no calendar cycle has 0.
pub fn cycle_start_of_word(word: u8, d: u32) -> u32
    ensures { result ≡ cycle_start (cycle_named word) d }
{
    cycle_start(Cycle::from(word), d)
}

// Which run of n days from `first` a date lies in: 0 before it, then 1, 2, ..; runs of 0 days are one.
#[tactic(auto, unfolding(crate::specs::Cycle::run_of), using(crate::proofs::Lengths::runs))]
pub fn run_of(first: u32, n: u32, d: u32) -> u32
    ensures { result ≡ run_of first n d }
{
    if d < first {
        return 0;
    }
    let days = day_number(d).saturating_sub(day_number(first));
    days.checked_div(n).unwrap_or(0) + 1
}
