// One line of a journal replayed: what it says, carried out, and its answer put into a lent buffer.
#![tactic(auto)]

ghost use Rattle.std.specs.Prelude.{◌≡◌, ◌*◌, ◌≤◌, length, take};
ghost use Rattle.text.specs.Decimal.{starting_with};
ghost use Rattle.text_writer.specs.TextWriter.{most_line};
ghost use Rattle.replay_parser.specs.Requests.{request_of, record_of};
ghost use Rattle.meter.specs.Machine.{state_in};
ghost use Rattle.replay_step.specs.ReplayStep.{no_call, called_by, QueryReplyIs, ReplyIs, Answered, audited_after, Answers, size_of};

use account::Codes;
use audited_meter::{AuditedMeter, CallResult};
use meter::Meter;
use refusal::Refusal;
use replay_parser::{Fault, Query, Request};

// The audited meter after a line, and the length of the answer.
#[derive(Clone, Copy)]
pub struct Replayed {
    pub audited: AuditedMeter,
    pub length: usize,
}

// The audited meter as it is, with nothing done.
fn no_call(audited: AuditedMeter) -> CallResult
    ensures { result ≡ no_call audited }
{
    CallResult {
        audited,
        done: Ok(Codes::none()),
    }
}

// A call on the audited meter, with the bytes that the line's reader left in `scratch`; what is no call leaves it
// as it is.
#[tactic(auto, unfolding(crate::specs::ReplayStep::called_by))]
fn called(audited: AuditedMeter, request: Result<Request, Fault>, scratch: &[u8]) -> CallResult
    ensures { result ≡ called_by audited request (take (size_of request) scratch.now) }
{
    match request {
        Ok(Request::Call(c, n)) => audited.call(c, &scratch[..n.min(scratch.len())]),
        Ok(Request::Nothing | Request::Query(_) | Request::Show) | Err(_) => no_call(audited),
    }
}

// The answer to a question on the meter. For the length that this and the two below ask, see
// `text_writer::MOST_LINE`; a meter and a line's buffer meet here alone.
#[tactic(auto, unfolding(crate::specs::ReplayStep::QueryReplyIs))]
fn queried(m: &Meter, q: Query, out: &mut [u8]) -> usize
    requires { most_line ≤ length out.old }
    ensures { Answered (QueryReplyIs (state_in m.now) q) out.old result out.new }
{
    match q {
        Query::Step => replay_replies::answer_line(query::step(m), out),
        Query::Display => replay_replies::answer_line(query::display(m), out),
        Query::Record(shelf, k) => replay_replies::answer_line(query::record(m, shelf, k), out),
        Query::Heavy(v) => replay_replies::answer_line(query::heavy(m, v), out),
    }
}

// The answer to a line, from the meter before it and what a call did.
#[tactic(auto, unfolding(crate::specs::ReplayStep::ReplyIs))]
fn answered(
    m: &Meter,
    number: u64,
    request: Result<Request, Fault>,
    done: Result<Codes, Refusal>,
    out: &mut [u8],
) -> usize
    requires { most_line ≤ length out.old }
    ensures { Answered (ReplyIs (state_in m.now) number request done) out.old result out.new }
{
    match request {
        Ok(Request::Nothing) => 0,
        Ok(Request::Call(_, _)) => replay_replies::answer_line(done, out),
        Ok(Request::Query(q)) => queried(m, q, out),
        Ok(Request::Show) => replay_status::status(m, out),
        Err(fault) => replay_replies::error_line(number, fault, out),
    }
}

// Replays a line: the audited meter after it, and its answer at the start of `out`. The line fits the
// scratch buffer as in `replay_lexer::words::put_pairs`.
pub fn replay_line(
    audited: AuditedMeter,
    number: u64,
    line: &[u8],
    scratch: &mut [u8],
    out: &mut [u8],
) -> Replayed
    requires line_len_bound { length line.now ≤ 2 * length scratch.old }
    requires in_bounds { most_line ≤ length out.old }
    ensures audited_value { result.audited ≡ audited_after audited (request_of line.now) (record_of line.now) }
    ensures scratch_after { scratch.new ≡ starting_with (record_of line.now) scratch.old }
    ensures answered { Answered (Answers audited number (request_of line.now) (record_of line.now)) out.old result.length out.new }
{
    let request = replay_parser::parse(line, scratch);
    let after = called(audited, request, scratch);
    let length = answered(&audited.meter, number, request, after.done, out);
    Replayed {
        audited: after.audited,
        length,
    }
}
