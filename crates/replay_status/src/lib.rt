// A meter in plain words and units, as the program `replay` shows it, put at the start of a lent
// buffer.
#![tactic(auto)]

ghost use Rattle.std.specs.Prelude.{◌≤◌, length, Err};
ghost use Rattle.text.specs.Written.{Written};
ghost use Rattle.text_writer.specs.TextWriter.{HasHeadroom, Appended, most_line};
ghost use Rattle.meter.specs.Machine.{state_in};
ghost use Rattle.replay_status.specs.Status.{balance_status, usage_status, step_status, valve_status, day_status, status_lines};

use account::Valve;
use meter::Meter;
use plan::StepPrice;
use records::OpenPeriod;
use refusal::Refusal;
use text_writer::{TextWriter, Value};
use units::{Charge, Hundredths, Millionths, Signed};

// The balance.
fn put_balance(b: Millionths, writer: &mut TextWriter<'_>)
    requires { HasHeadroom 42 writer.old }
    ensures { Appended (balance_status b.0) 42 writer.old writer.new }
{
    writer.word(b"balance ");
    writer.either(b.negative(), b"-", b"");
    writer.item(b"", Value::Money(Charge(b.size())));
    writer.word(b" yuan\n");
}

// The usage.
fn put_usage(v: Hundredths, writer: &mut TextWriter<'_>)
    requires { HasHeadroom 51 writer.old }
    ensures { Appended (usage_status v.0) 51 writer.old writer.new }
{
    writer.item(b"usage ", Value::Volume(v));
    writer.word(b" m3 in this cycle\n");
}

// Why there is no step.
fn put_refusal(refusal: Refusal, writer: &mut TextWriter<'_>)
    requires { HasHeadroom 74 writer.old }
    ensures { Appended (step_status (Err refusal)) 74 writer.old writer.new }
{
    match refusal {
        Refusal::NoPlan => writer.word(b"step none, no plan in force\n"),
        _ => {
            writer.item(b"step refused ", Value::Whole(u64::from(u8::from(refusal))));
            writer.word(b"\n");
        }
    }
}

// The step.
fn put_step(step: Result<StepPrice, Refusal>, writer: &mut TextWriter<'_>)
    requires { HasHeadroom 74 writer.old }
    ensures { Appended (step_status step) 74 writer.old writer.new }
{
    match step {
        Ok(p) => {
            writer.item(b"step ", Value::Whole(u64::from(p.number)));
            writer.item(b" at ", Value::Price(p.price));
            writer.word(b" yuan a m3\n");
        }
        Err(refusal) => put_refusal(refusal, writer),
    }
}

// The valve and the mark, a line each.
fn put_valve(v: Valve, writer: &mut TextWriter<'_>)
    requires { HasHeadroom 47 writer.old }
    ensures { Appended (valve_status v) 47 writer.old writer.new }
{
    writer.either(v.opened, b"valve open\n", b"valve closed\n");
    writer.either(v.allow, b"mark allow\n", b"mark forbid\n");
}

// The open day, of the clock's date.
fn put_day(date: u32, t: OpenPeriod, writer: &mut TextWriter<'_>)
    requires { HasHeadroom 103 writer.old }
    ensures { Appended (day_status date t) 103 writer.old writer.new }
{
    if date == 0 {
        writer.word(b"open day none, no accepted call yet\n");
        return;
    }
    writer.item(b"open day ", Value::Whole(u64::from(date)));
    writer.item(b": ", Value::Volume(t.volume));
    writer.item(b" m3, ", Value::Money(t.charge));
    writer.word(b" yuan\n");
}

// A meter in plain words and units. For the length that it asks, see `text_writer::MOST_LINE`.
pub fn status(m: &Meter, out: &mut [u8]) -> usize
    requires { most_line ≤ length out.old }
    ensures { Written (status_lines (state_in m.now)) most_line out.old result out.new }
{
    let r = m.machine.registers;
    let mut writer = TextWriter::new(out);
    put_balance(r.account.balance, &mut writer);
    put_usage(r.slots.usage, &mut writer);
    put_step(query::step(m), &mut writer);
    put_valve(r.valve, &mut writer);
    put_day(r.clock.date, r.periods.day, &mut writer);
    writer.end()
}
