// Document 01, "Refusal by operation": each number, the meter unchanged where it is a call's.
use crate::calls::{alarms, command, key, load, load_on, pulses, recharge, tick};
use crate::count::Count;
use crate::setup::Start::{Broken, February, Forbidden, Fresh, Full, Planned, Ready, Twice};
use crate::setup::{PLAN_A, altered};
use records::Shelf;
use refusal::Refusal;
use refusal::Refusal::{
    Balance, CycleWord, Dates, Digits, Earlier, InForce, NoAmount, NoPrice, OutOfBounds, Overlap,
    Pulses, RecordLength, Serial, SerialAbove, SerialAgain, SerialBelow, Slot, Stamp, Steps, Total,
};
use std::io;
use units::Hundredths;

fn broken(c: &mut Count) -> io::Result<()> {
    c.say_all(&[
        Broken.refuses(pulses(1), OutOfBounds, "pulses on a total of 100,000,000"),
        Broken.refuses(recharge(1_000_000, 2), OutOfBounds, "a recharge"),
        Broken.refuses(load(2, PLAN_A), OutOfBounds, "a plan"),
        Broken.refuses(alarms(10, 5), OutOfBounds, "alarms"),
        Broken.refuses(command(1), OutOfBounds, "a command"),
        Broken.refuses(key(), OutOfBounds, "the key"),
        Broken.refuses(tick(20_200_115, 0), OutOfBounds, "a tick"),
    ])
}

// Plan A altered, into slot 2.
fn damaged(c: &mut Count) -> io::Result<()> {
    let steps = altered(8, [7, 1]);
    let word = altered(8, [2, 6]);
    let digit = altered(20, [0x2a, 0]);
    let end = altered(6, [0x02, 0x29]);
    let none = altered(4, [0x20, 0x20]);
    let free = altered(23, [0, 0]);
    c.say_all(&[
        Ready.refuses(load(2, b"\x20\x20\x01\x01"), RecordLength, "four bytes"),
        Ready.refuses(load(2, &steps), Steps, "seven steps"),
        Ready.refuses(load(2, &word), CycleWord, "cycle word 06"),
        Ready.refuses(load(2, &digit), Digits, "a digit above 9"),
        Ready.refuses(load(2, &end), Dates, "the end 20210229"),
        Ready.refuses(load(2, &none), Refusal::NoDay, "the end is the start"),
        Ready.refuses(load(2, &free), NoPrice, "a price of 0"),
    ])
}

fn stamps(c: &mut Count) -> io::Result<()> {
    let late = tick(20_200_131, 86_399);
    c.say_all(&[
        Ready.refuses(tick(20_210_229, 0), Stamp, "the date 20210229"),
        Ready.refuses(tick(20_200_115, 86_400), Stamp, "second 86,400"),
        Ready.refuses(
            tick(20_200_114, 86_399),
            Earlier,
            "a second before the clock",
        ),
        February.refuses(late, Earlier, "the same on a meter with records"),
    ])
}

fn loads(c: &mut Count) -> io::Result<()> {
    let last = load_on(20_201_231, 1, PLAN_A);
    let behind = load_on(20_210_101, 1, PLAN_A);
    c.say_all(&[
        Ready.refuses(load(3, PLAN_A), Slot, "slot 3"),
        Ready.refuses(last, InForce, "slot 1 on the last day in force"),
        Ready.accepts(behind, "slot 1 loads on the day after"),
        Ready.refuses(load(2, PLAN_A), Overlap, "the same plan in slot 2"),
    ])
}

fn totals(c: &mut Count) -> io::Result<()> {
    c.say_all(&[
        Full.refuses(pulses(65_536), Pulses, "65,536 pulses"),
        Full.refuses(pulses(1), Total, "a pulse at a total of 99,999,999"),
        Full.accepts(pulses(0), "no pulse there passes"),
    ])
}

fn recharges(c: &mut Count) -> io::Result<()> {
    let most = recharge(u64::MAX, 3);
    c.say_all(&[
        Ready.accepts(recharge(1_000_000, 2), "serial 2 after 1 passes"),
        Twice.refuses(recharge(1_000_000, 0), Serial, "serial 0"),
        Twice.refuses(recharge(1_000_000, 65_536), Serial, "serial 65,536"),
        Twice.refuses(recharge(1_000_000, 2), SerialAgain, "serial 2 after 2"),
        Twice.refuses(recharge(1_000_000, 1), SerialBelow, "serial 1 after 2"),
        Twice.refuses(recharge(1_000_000, 4), SerialAbove, "serial 4 after 2"),
        Twice.refuses(recharge(0, 3), NoAmount, "amount 0"),
        Twice.refuses(most, Balance, "the highest amount of 64 bits"),
    ])
}

fn settings(c: &mut Count) -> io::Result<()> {
    c.say_all(&[
        Ready.refuses(command(2), Refusal::Command, "command 2"),
        Fresh.refuses(key(), Refusal::Key, "the key with no plan"),
        Planned.refuses(key(), Refusal::Key, "the key with no balance"),
        Forbidden.refuses(key(), Refusal::Key, "the key that the station forbids"),
        Ready.refuses(alarms(5, 5), Refusal::Alarms, "equal alarms"),
    ])
}

// The refusals of the questions on a fresh meter.
fn step() -> Option<Refusal> {
    query::step(&Fresh.meter()).err()
}

fn day() -> Option<Refusal> {
    query::record(&Fresh.meter(), Shelf::Day, 0).err()
}

fn month() -> Option<Refusal> {
    query::record(&Fresh.meter(), Shelf::Month, 0).err()
}

fn heavy() -> Option<Refusal> {
    query::heavy(&Fresh.meter(), Hundredths(0)).err()
}

fn queries(c: &mut Count) -> io::Result<()> {
    c.say_refused(step(), Refusal::NoPlan, "the step with no plan")?;
    c.say_refused(day(), Refusal::NotHeld, "a day record that is not held")?;
    c.say_refused(month(), Refusal::NotHeld, "a month record that is not held")?;
    c.say_refused(
        heavy(),
        Refusal::NoHeavyDay,
        "a heavy day where no day is held",
    )
}

// Plan A written into a buffer.
fn write_a(out: &mut [u8]) -> Result<(), Refusal> {
    plan_record::write(plan_record::read(PLAN_A)?, out)
}

fn short_buffer(c: &mut Count) -> io::Result<()> {
    let mut out = [0x77; 65];
    let short = write_a(&mut out).err();
    c.say_refused(short, Refusal::BufferLength, "a buffer of 65 bytes")?;
    c.say(out == [0x77; 65], "26: the buffer is unchanged")
}

pub fn all(c: &mut Count) -> io::Result<()> {
    broken(c)?;
    damaged(c)?;
    stamps(c)?;
    loads(c)?;
    totals(c)?;
    recharges(c)?;
    settings(c)?;
    queries(c)?;
    short_buffer(c)
}
