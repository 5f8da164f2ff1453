// Document 01, "Worked sums": those that a program checks, the overlap of Tables C.10 and C.11, and
// gas at midnight of a month's end.
use crate::calls::{load_on, pulses, pulses_at, recharge, tick};
use crate::checks::Check;
use crate::count::Count;
use crate::setup::Start::{February, Fresh, January, March, Planned, Ready, Recharged, Tabled};
use crate::setup::{Start, TABLE_C10, TABLE_C11, with_balance};
use plan::StepPrice;
use records::Shelf;
use refusal::Refusal::{Overlap, Pulses, SerialAbove, SerialAgain};
use std::io;
use units::{Charge, Hundredths, Shown, TenThousandths};

// Each check by its name, which has the refusal's number in it, where there is one.
fn say_all(c: &mut Count, checks: &[Check<'_>]) -> io::Result<()> {
    for check in checks {
        c.say(check.holds(), check.name)?;
    }
    Ok(())
}

fn limits(c: &mut Count) -> io::Result<()> {
    let first = recharge(1_000_000, 1);
    let second = recharge(1_000_000, 2);
    let checks = [
        Ready.accepts(pulses(65_535), "65,535 pulses pass"),
        Ready.refuses(pulses(65_536), Pulses, "65,536 pulses are refused 13"),
        Planned.refuses(second, SerialAbove, "serial 2 first is refused 18"),
        Planned.accepts(first, "serial 1 first passes"),
        Recharged.refuses(first, SerialAgain, "serial 1 twice is refused 16"),
    ];
    say_all(c, &checks)
}

// As printed the two tables overlap until the window of the first ends on 20160101.
fn overlap(c: &mut Count) -> io::Result<()> {
    let first = load_on(20_150_915, 1, TABLE_C10);
    let early = load_on(20_151_231, 2, TABLE_C11);
    let on_end = load_on(20_160_101, 2, TABLE_C11);
    let checks = [
        Fresh.accepts(first, "Table C.10 loads into slot 1"),
        Tabled.refuses(
            early,
            Overlap,
            "Table C.11 beside it on 20151231 is refused 12",
        ),
        Tabled.accepts(on_end, "Table C.11 beside it on 20160101 loads"),
    ];
    say_all(c, &checks)
}

// Whether the meter's step has this number and price.
fn step(start: Start, number: u8, price: u64) -> bool {
    let m = start.meter();
    let price = TenThousandths(price);
    query::step(&m) == Ok(StepPrice { number, price })
}

// Gas in the second at midnight is February's alone, and February begins in step 1.
fn midnight(c: &mut Count) -> io::Result<()> {
    let ok = step(January, 2, 31_500);
    c.say(ok, "after 2,500 pulses in January the step is 2")?;
    let pulse = pulses_at(20_200_201, 0, 1);
    let pulse = January.accepts(pulse, "a pulse at 20200201 second 0 passes");
    say_all(c, &[pulse])?;
    c.say(step(February, 1, 26_000), "after it the step is 1")?;
    let tick = February.accepts(tick(20_200_301, 0), "a tick on 20200301 passes");
    say_all(c, &[tick])
}

// Whether month record k on 20200301 has this date, volume and charge.
fn holds(k: usize, date: u32, volume: u32, charge: u64) -> bool {
    let m = March.meter();
    query::record(&m, Shelf::Month, k).is_ok_and(|r| {
        r.date == date && r.volume == Hundredths(volume) && r.charge == Charge(charge)
    })
}

fn months(c: &mut Count) -> io::Result<()> {
    let ok = holds(0, 20_200_201, 1, 26_000);
    c.say(ok, "February holds 1 pulse and 26,000")?;
    let ok = holds(1, 20_200_101, 2_500, 65_000_000);
    c.say(ok, "January holds 2,500 pulses and 65,000,000")
}

// Whether the display shows this many ten-thousandths of a yuan for a balance.
fn shows(balance: i64, n: i64) -> bool {
    let m = with_balance(balance);
    query::display(&m) == Ok(Shown(n))
}

fn displays(c: &mut Count) -> io::Result<()> {
    c.say(shows(99, 0), "99 shows 0")?;
    c.say(shows(-1, -1), "-1 shows -1")?;
    c.say(shows(-100, -1), "-100 shows -1")?;
    c.say(shows(-101, -2), "-101 shows -2")
}

pub fn all(c: &mut Count) -> io::Result<()> {
    limits(c)?;
    overlap(c)?;
    midnight(c)?;
    months(c)?;
    displays(c)
}
