// Holds the calendar against a count of its own that steps from day to day, at every number from 19990000 to 21009999.
#![tactic(auto)]

ghost use Rattle.std.specs.Prelude.{◌≡◌, ◌+◌, ◌≤◌, ◌<◌};
ghost use Rattle.calendar.specs.Date.{is_date};
ghost use Rattle.calendar_check.specs.Count.{Counted};

use std::io;

// The first dates of a day's month, quarter and year, as the count passed them.
#[derive(Clone, Copy)]
struct Firsts {
    month: u32,
    quarter: u32,
    year: u32,
}

// A day as the count reaches it; `since` says how many years ago the last leap year was.
#[derive(Clone, Copy)]
struct Day {
    year: u16,
    month: u8,
    day: u8,
    since: u8,
    number: u32,
    firsts: Firsts,
}

// What was found so far, and the next day that the count expects.
#[derive(Clone, Copy)]
struct Count {
    next: Day,
    numbers: u32,
    dates: u32,
    differences: u32,
}

fn written(year: u16, month: u8, day: u8) -> u32 {
    u32::from(year) * 10_000 + u32::from(month) * 100 + u32::from(day)
}

// Long and short months alternate, but July and August are both long. A month is a number: the program
// counts the days by itself, to set them beside those of crate `calendar`.
fn length(month: u8, since: u8) -> u8 {
    match month {
        2 if since == 0 => 29,
        2 => 28,
        _ => 30 + (month % 8 + month / 8) % 2,
    }
}

impl Firsts {
    // After the first of a month of this number, which is the date `first`.
    fn begun(self, month: u8, first: u32) -> Firsts {
        Firsts {
            month: first,
            quarter: if month % 3 == 1 { first } else { self.quarter },
            year: if month == 1 { first } else { self.year },
        }
    }
}

impl Day {
    const FIRST: Day = Day {
        year: 2000,
        month: 1,
        day: 1,
        since: 0,
        number: 0,
        firsts: Firsts {
            month: 20_000_101,
            quarter: 20_000_101,
            year: 20_000_101,
        },
    };

    fn date(self) -> u32 {
        written(self.year, self.month, self.day)
    }

    // The first of this month, which begins after this day.
    fn begin(self, year: u16, month: u8, since: u8) -> Day
        requires number_bound { self.number < 100000000 }
        ensures { result.number ≡ self.number + 1 }
    {
        Day {
            year,
            month,
            day: 1,
            since,
            number: self.number + 1,
            firsts: self.firsts.begun(month, written(year, month, 1)),
        }
    }

    // Each fourth year is a leap year.
    fn next(self) -> Day
        requires year_bound { self.year < 2100 }
        requires number_bound { self.number < 100000000 }
        ensures { result.number ≡ self.number + 1 }
    {
        if self.day < length(self.month, self.since) {
            Day {
                day: self.day + 1,
                number: self.number + 1,
                ..self
            }
        } else if self.month < 12 {
            self.begin(self.year, self.month + 1, self.since)
        } else {
            let since = if self.since < 3 { self.since + 1 } else { 0 };
            self.begin(self.year + 1, 1, since)
        }
    }

    // How many of the calendar's answers for the number n differ, which ought to be this day's date.
    fn differences(self, n: u32) -> u32
        ensures { result ≤ 4 }
    {
        if !calendar::is_date(n) {
            return 1;
        }
        u32::from(calendar::day_number(n) != self.number)
            + u32::from(calendar::month_start(n) != self.firsts.month)
            + u32::from(calendar::quarter_start(n) != self.firsts.quarter)
            + u32::from(calendar::year_start(n) != self.firsts.year)
    }
}

impl Count {
    const NOTHING: Count = Count {
        next: Day::FIRST,
        numbers: 0,
        dates: 0,
        differences: 0,
    };

    // The count with the number n: a date if the count expects it, and no date otherwise.
    fn with(self, n: u32) -> Count
        requires counted { Counted self }
        requires numbers_bound { self.numbers < 10000000 }
        ensures { (result.numbers ≡ self.numbers + 1) × Counted result }
    {
        let day = self.next;
        let numbers = self.numbers + 1;
        if day.year < 2100 && n == day.date() {
            return Count {
                next: day.next(),
                numbers,
                dates: self.dates + 1,
                differences: self.differences + day.differences(n),
            };
        }
        Count {
            numbers,
            differences: self.differences + u32::from(calendar::is_date(n)),
            ..self
        }
    }
}

fn counted() -> Count {
    let mut t = Count::NOTHING;
    for n in 19_990_000..21_010_000 {
        t = t.with(n);
    }
    t
}

fn main(rt: HostRuntime) -> io::Result<()> {
    let t = counted();
    println!(rt; "numbers {}", t.numbers)?;
    println!(rt; "dates {}", t.dates)?;
    println!(rt; "differences {}", t.differences)
}
