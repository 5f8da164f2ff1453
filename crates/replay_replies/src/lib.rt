// The lines that the program `replay` prints for a journal of calls, put at the start of a lent
// buffer. Each function answers how many bytes it put; what stands behind them stays.
#![tactic(auto)]

ghost use Rattle.std.specs.Prelude.{◌≡◌, ℕ, List, ◌≤◌, length};
ghost use Rattle.text.specs.Written.{Written};
ghost use Rattle.text_writer.specs.TextWriter.{HasHeadroom, Appended, most_line};
ghost use Rattle.replay_replies.specs.Lines.{ok_line, step_text, display_text, record_text, heavy_text, answer_line};
ghost use Rattle.replay_replies.specs.Errors.{fault_text, error_line};
ghost use Rattle.replay_replies.specs.Closing.{agrees, closing_line};

use account::Codes;
use plan::StepPrice;
use records::{PlacedRecord, Record};
use refusal::Refusal;
use replay_parser::Fault;
use text_writer::{TextWriter, Value};
use units::{Charge, Millionths, Shown};

// What a call or a query answers, as a line.
pub trait Line: Copy {
    ghost text: { Self → List ℕ };

    fn put(self, writer: &mut TextWriter<'_>)
        requires { HasHeadroom most_line writer.old }
        ensures { Appended (text self) most_line writer.old writer.new };
}

// `ok` and the codes.
impl Line for Codes {
    ghost text = { ok_line };

    fn put(self, writer: &mut TextWriter<'_>) {
        writer.word(b"ok");
        for code in &self.list[..self.count.min(Codes::MOST)] {
            writer.item(b" ", Value::Code(*code));
        }
        writer.word(b"\n");
    }
}

impl Line for StepPrice {
    ghost text = { step_text };

    fn put(self, writer: &mut TextWriter<'_>) {
        writer.number(Value::Whole(u64::from(self.number)), b' ');
        writer.number(Value::Whole(self.price.0), b'\n');
    }
}

impl Line for Shown {
    ghost text = { display_text };

    fn put(self, writer: &mut TextWriter<'_>) {
        writer.number(Value::Display(self), b'\n');
    }
}

// A record's numbers.
fn put_record(r: Record, writer: &mut TextWriter<'_>)
    requires { HasHeadroom 112 writer.old }
    ensures { Appended (record_text r) 112 writer.old writer.new }
{
    writer.number(Value::Whole(u64::from(r.date)), b' ');
    writer.number(Value::Whole(u64::from(r.volume.0)), b' ');
    writer.number(Value::Whole(r.charge.0), b' ');
    writer.number(Value::Balance(r.closing), b'\n');
}

impl Line for Record {
    ghost text = { record_text };

    fn put(self, writer: &mut TextWriter<'_>) {
        put_record(self, writer);
    }
}

impl Line for PlacedRecord {
    ghost text = { heavy_text };

    fn put(self, writer: &mut TextWriter<'_>) {
        writer.number(Value::Whole(self.place as u64), b' ');
        put_record(self.held, writer);
    }
}

// The line of an answer: what was answered, or the number of the refusal. For the length that it and the
// two below ask, see `text_writer::MOST_LINE`.
pub fn answer_line<T: Line>(answer: Result<T, Refusal>, out: &mut [u8]) -> usize
    requires { most_line ≤ length out.old }
    ensures { Written (answer_line T.text answer) most_line out.old result out.new }
{
    let mut writer = TextWriter::new(out);
    match answer {
        Ok(value) => value.put(&mut writer),
        Err(refusal) => {
            writer.word(b"refused ");
            writer.number(Value::Whole(u64::from(u8::from(refusal))), b'\n');
        }
    }
    writer.end()
}

// What is wrong with a line, in words.
#[tactic(auto, unfolding(crate::specs::Errors::fault_text))]
fn fault_words(fault: Fault) -> &'static [u8]
    ensures words { result.now ≡ fault_text fault }
    ensures few { length result.now ≤ 117 }
{
    match fault {
        Fault::UnknownWord =>
            b"unknown word; the words are pulse, recharge, plan, alarms, command, key, tick, step, display, day, month, heavy, show",
        Fault::WordCount => b"wrong number of words",
        Fault::NotANumber => b"not a decimal number",
        Fault::NotHex => b"record not in pairs of hexadecimal digits",
        Fault::Gap => b"words must be parted by single spaces",
        Fault::TooLong => b"line longer than 65,535 bytes",
    }
}

// The line of a journal line that is no call and no query, with its number.
pub fn error_line(line: u64, fault: Fault, out: &mut [u8]) -> usize
    requires { most_line ≤ length out.old }
    ensures { Written (error_line line fault) most_line out.old result out.new }
{
    let mut writer = TextWriter::new(out);
    writer.item(b"error ", Value::Whole(line));
    writer.word(b": ");
    writer.word(fault_words(fault));
    writer.word(b"\n");
    writer.end()
}

// Whether recharged minus balance is the ledger sum; any numbers.
fn agree(recharged: Charge, balance: Millionths, ledger: Charge) -> bool
    ensures { result ≡ agrees recharged balance ledger }
{
    i128::from(recharged.0) - i128::from(balance.0) == i128::from(ledger.0)
}

// The closing line.
pub fn closing_line(recharged: Charge, balance: Millionths, ledger: Charge, out: &mut [u8]) -> usize
    requires { most_line ≤ length out.old }
    ensures { Written (closing_line recharged balance ledger) most_line out.old result out.new }
{
    let mut writer = TextWriter::new(out);
    writer.item(b"recharged ", Value::Whole(recharged.0));
    writer.item(b" balance ", Value::Balance(balance));
    writer.item(b" ledger ", Value::Whole(ledger.0));
    writer.either(agree(recharged, balance, ledger), b" agree\n", b" differ\n");
    writer.end()
}
