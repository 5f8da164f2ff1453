// The record in force of two: which is handed back, and each refusal with nothing handed back.
use crate::count::Count;
use crate::setup::{PLAN_A, TABLE_C10, altered};
use refusal::Refusal;
use std::io;

// Whether the part that is handed back is this one; an empty one is a refusal. Two records and a date, as
// `plan_record::choose` has them.
fn hands(first: &[u8], second: &[u8], date: u32, part: &[u8]) -> bool {
    plan_record::in_force(first, second, date) == part
}

// The refusal to choose between two records on a date, where nothing is handed back.
fn refusal(first: &[u8], second: &[u8], date: u32) -> Option<Refusal> {
    let refusal = plan_record::choose(first, second, date).err();
    if hands(first, second, date, b"") {
        refusal
    } else {
        None
    }
}

fn which(c: &mut Count) -> io::Result<()> {
    let ok = hands(PLAN_A, TABLE_C10, 20_200_101, PLAN_A);
    c.say(ok, "the first record in force is handed back")?;
    let ok = hands(TABLE_C10, PLAN_A, 20_200_101, PLAN_A);
    c.say(ok, "the second record in force is handed back")
}

fn refused(c: &mut Count) -> io::Result<()> {
    let none = refusal(PLAN_A, TABLE_C10, 20_210_101);
    c.say_refused(none, Refusal::NoPlan, "neither record in force")?;
    let both = refusal(PLAN_A, PLAN_A, 20_200_101);
    c.say_refused(both, Refusal::Overlap, "both records in force")?;
    let date = refusal(PLAN_A, TABLE_C10, 20_210_229);
    c.say_refused(date, Refusal::Stamp, "the date of a record in force")
}

fn damaged(c: &mut Count) -> io::Result<()> {
    let steps = altered(8, [7, 1]);
    let word = altered(8, [2, 6]);
    let first = refusal(&steps, &word, 20_200_101);
    let name = "the first of two records has seven steps";
    c.say_refused(first, Refusal::Steps, name)?;
    let second = refusal(PLAN_A, &word, 20_200_101);
    let name = "the second of two records has cycle word 06";
    c.say_refused(second, Refusal::CycleWord, name)
}

pub fn all(c: &mut Count) -> io::Result<()> {
    which(c)?;
    refused(c)?;
    damaged(c)
}
