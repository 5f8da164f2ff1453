// A journal of calls as plain text, one call to a line: what a line says, or what is wrong with it.
#![tactic(auto)]

mod forms; // forms.rt: the table of the words

ghost use Rattle.std.specs.Prelude.{◌≡◌, ◌*◌, ◌≤◌, length};
ghost use Rattle.text.specs.Decimal.{starting_with};
ghost use Rattle.replay_parser.specs.Faults.{form_in};
ghost use Rattle.replay_parser.specs.Requests.{stamp_in, request_for, record_by, request_of, record_of};

use calendar::Stamp;
use forms::form_of;
pub use forms::{Form, Kind};
use meter::{Alarms, Call, Command, Key, Load, Pulses, Recharge, Tick};
use records::Shelf;
use refusal::need;
use replay_lexer::words;
use replay_lexer::words::{narrow_at, wide_at, word};
use units::{Hundredths, TenThousandths};

// What is wrong with a line.
#[derive(Clone, Copy, PartialEq, Eq)]
pub enum Fault {
    UnknownWord,
    WordCount,
    NotANumber,
    NotHex,
    Gap,
    TooLong,
}

// A question on the meter.
#[derive(Clone, Copy)]
pub enum Query {
    Step,
    Display,
    Record(Shelf, usize),
    Heavy(Hundredths),
}

// What a line says: one of four things, none of them an error. The record of a plan stands at the start
// of a lent buffer; its length is beside the call, 0 for any other. With `Call(Call, &[u8])` the promise
// of `parse` could not be stated: no definition makes a reference, and a buffer that is handed out in
// part has no value after the call.
#[derive(Clone, Copy)]
pub enum Request {
    Nothing,
    Call(Call, usize),
    Query(Query),
    Show,
}

// How a content is made, or its first fault.
#[tactic(auto, unfolding(crate::specs::Faults::form_in))]
fn form_in(s: &[u8]) -> Result<Form, Fault>
    ensures { result ≡ form_in s.now }
{
    need(!words::has_gap(s), Fault::Gap)?;
    let form = form_of(word(s, 0)).ok_or(Fault::UnknownWord)?;
    need(words::words_behind(s) == form.words, Fault::WordCount)?;
    need(words::are_numbers(s, form.numbers), Fault::NotANumber)?;
    let hex = form.words <= form.numbers || words::is_hex(word(s, form.words));
    need(hex, Fault::NotHex)?;
    Ok(form)
}

#[tactic(auto, unfolding(crate::specs::Requests::stamp_in))]
fn stamp_in(s: &[u8]) -> Stamp
    ensures { result ≡ stamp_in s.now }
{
    Stamp {
        date: narrow_at(s, 1),
        second: narrow_at(s, 2),
    }
}

// What a content without a fault says.
#[tactic(auto, unfolding(crate::specs::Requests::request_for))]
fn request_for(kind: Kind, s: &[u8]) -> Request
    ensures { result ≡ request_for kind s.now }
{
    let stamp = stamp_in(s);
    let call = match kind {
        Kind::Step => return Request::Query(Query::Step),
        Kind::Display => return Request::Query(Query::Display),
        Kind::Show => return Request::Show,
        Kind::Day => return Request::Query(Query::Record(Shelf::Day, wide_at(s, 1) as usize)),
        Kind::Month => return Request::Query(Query::Record(Shelf::Month, wide_at(s, 1) as usize)),
        Kind::Heavy => return Request::Query(Query::Heavy(Hundredths(narrow_at(s, 1)))),
        Kind::Plan => {
            let slot = narrow_at(s, 3);
            return Request::Call(Call::Load(Load { stamp, slot }), word(s, 4).len() / 2);
        }
        Kind::Pulse => Call::Pulses(Pulses {
            stamp,
            count: Hundredths(narrow_at(s, 3)),
        }),
        Kind::Recharge => Call::Recharge(Recharge {
            stamp,
            amount: TenThousandths(wide_at(s, 3)),
            serial: narrow_at(s, 4),
        }),
        Kind::Alarms => Call::Alarms(Alarms {
            stamp,
            alarm_1: narrow_at(s, 3),
            alarm_2: narrow_at(s, 4),
        }),
        Kind::Command => Call::Command(Command {
            stamp,
            code: narrow_at(s, 3),
        }),
        Kind::Key => Call::Key(Key { stamp }),
        Kind::Tick => Call::Tick(Tick { stamp }),
    };
    Request::Call(call, 0)
}

// The record of a plan, put at the start of the buffer. Its size is asked for as in
// `replay_lexer::words::put_pairs`.
#[tactic(auto, unfolding(crate::specs::Requests::record_by))]
fn put_record(f: Form, s: &[u8], scratch: &mut [u8])
    requires { length s.now ≤ 2 * length scratch.old }
    ensures { scratch.new ≡ starting_with (record_by f s.now) scratch.old }
{
    if f.words > f.numbers {
        words::put_pairs(word(s, f.words), scratch);
    }
}

// What a line says; a plan's record then stands at the start of the buffer.
pub fn parse(line: &[u8], scratch: &mut [u8]) -> Result<Request, Fault>
    requires { length line.now ≤ 2 * length scratch.old }
    ensures { (result ≡ request_of line.now) × (scratch.new ≡ starting_with (record_of line.now) scratch.old) }
{
    let s = words::content(line);
    if s.is_empty() {
        return Ok(Request::Nothing);
    }
    let form = form_in(s)?;
    put_record(form, s, scratch);
    Ok(request_for(form.kind, s))
}
