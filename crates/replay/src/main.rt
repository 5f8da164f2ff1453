// Replays a journal of calls from standard input on one meter, a line of answer to each line, and sets
// the ledger's view of the journal beside the meter's at the end.
#![tactic(auto)]

ghost use Rattle.std.specs.Prelude.{◌≡◌, ◌≤◌, length, OnOk, IfOk};
ghost use Rattle.replay.specs.Headroom.{capacity, HasHeadroom};

use audited_meter::AuditedMeter;
use replay_lexer::lines;
use replay_parser::Fault;
use std::io;
use std::io::{Read, Write};
use text_writer::MOST_LINE;

// The bytes of input, and of answers, that are held at once.
const CAPACITY: usize = 65_536;

// The answers that wait to be written. The memory is fixed; its unused end is lent to an answer.
#[derive(Drop)]
struct Answers {
    bytes: [u8; CAPACITY],
    used: usize,
    ghost in_bounds: { used ≤ capacity },
}

impl Answers {
    // Writes what waits.
    fn flush(&mut self, sink: &mut impl Write) -> io::Result<()>
        ensures { OnOk result (self.new.used ≡ 0) }
    {
        sink.write_all(&self.bytes[..self.used])?;
        self.used = 0;
        Ok(())
    }

    // Sees to it that one more answer fits.
    fn make_headroom(&mut self, sink: &mut impl Write) -> io::Result<()>
        ensures { OnOk result (HasHeadroom self.new.used) }
    {
        if self.bytes.len() - self.used < MOST_LINE {
            self.flush(sink)?;
        }
        Ok(())
    }
}

// The audited meter, the lines so far, whether the program is inside a line that was too long, and what the
// program writes to: the record of a plan and the answers.
#[derive(Drop)]
struct Replayer {
    audited: AuditedMeter,
    lines: u64,
    skipping: bool,
    scratch: [u8; CAPACITY / 2],
    answers: Answers,
}

impl Replayer {
    fn new() -> Replayer {
        Replayer {
            audited: AuditedMeter::new(),
            lines: 0,
            skipping: false,
            scratch: [0; CAPACITY / 2],
            answers: Answers {
                bytes: [0; CAPACITY],
                used: 0,
            },
        }
    }

    // Replays one line; the end of a line that was too long is passed over. A part of the input is a
    // slice, whose type has no most length, so three functions ask that it is within the capacity.
    fn replay_line(&mut self, line: &[u8])
        requires line_len_bound { length line.now ≤ capacity }
        requires scratch { HasHeadroom self.old.answers.used }
    {
        self.lines = self.lines.saturating_add(1);
        if self.skipping {
            self.skipping = false;
            return;
        }
        let at = self.answers.used;
        let out = &mut self.answers.bytes[at..];
        let replayed = replay_step::replay_line(
            self.audited,
            self.lines,
            line,
            &mut self.scratch,
            out,
        );
        self.audited = replayed.audited;
        self.answers.used = at + replayed.length;
    }

    // Replays the whole lines of the input, and says how far they go. The loop keeps two places: over the
    // parts of a split it would have to add up how far it is, and tell a last part that has no end.
    fn replay_lines(&mut self, sink: &mut impl Write, input: &[u8]) -> io::Result<usize>
        requires { length input.now ≤ capacity }
        ensures { IfOk result (λ from. from ≤ length input.now) }
    {
        let mut from = 0;
        let mut end = lines::line_end(input, from);
        while end < input.len() {
            self.answers.make_headroom(sink)?;
            self.replay_line(&input[from..end]);
            from = end + 1;
            end = lines::line_end(input, from);
        }
        Ok(from)
    }

    // What is left of the input is held for the next read, but for a line that is too long: it is
    // answered once, and passed over up to its end.
    fn keep(&mut self, left: usize) -> usize
        requires { HasHeadroom self.old.answers.used }
        ensures { result ≤ left }
    {
        if self.skipping {
            return 0;
        }
        if left < CAPACITY {
            return left;
        }
        let at = self.answers.used;
        let number = self.lines.saturating_add(1);
        let out = &mut self.answers.bytes[at..];
        self.answers.used = at + replay_replies::error_line(number, Fault::TooLong, out);
        self.skipping = true;
        0
    }

    // The lines that a read completes, answered before the next. There is no heap for a reader of lines:
    // the input is a lent array, of which the first `have` bytes are there.
    fn replay_some(
        &mut self,
        sink: &mut impl Write,
        input: &mut [u8; CAPACITY],
        have: usize,
    ) -> io::Result<usize>
        requires { have ≤ capacity }
        ensures { IfOk result (λ held. held ≤ capacity) }
    {
        let from = self.replay_lines(sink, &input[..have])?;
        lines::shift(input, from, have);
        self.answers.make_headroom(sink)?;
        let held = self.keep(have - from);
        self.answers.flush(sink)?;
        Ok(held)
    }

    // The closing line: the ledger's view of the journal beside the meter's.
    fn close(&mut self)
        requires { self.old.answers.used ≡ 0 }
    {
        let running = self.audited.running;
        let balance = self.audited.meter.machine.registers.account.balance;
        let out = &mut self.answers.bytes;
        self.answers.used = replay_replies::closing_line(
            running.recharged,
            balance,
            running.sum(),
            out,
        );
    }

    // The end of the input: a last line without its end, and the closing line.
    fn finish(&mut self, sink: &mut impl Write, rest: &[u8]) -> io::Result<()>
        requires { length rest.now ≤ capacity }
    {
        if !rest.is_empty() {
            self.answers.make_headroom(sink)?;
            self.replay_line(rest);
        }
        self.answers.flush(sink)?;
        self.close();
        self.answers.flush(sink)
    }

    // A proved loop has to end, and nothing says that the input does. So it counts its turns, up to a
    // number that no run uses up.
    fn replay_all(&mut self, source: &mut impl Read, sink: &mut impl Write) -> io::Result<()> {
        let mut input = [0; CAPACITY];
        let mut held = 0;
        for _ in 0..u64::MAX {
            let got = source.read(&mut input[held..])?;
            if got == 0 {
                break;
            }
            held = self.replay_some(sink, &mut input, held + got)?;
        }
        self.finish(sink, &input[..held])
    }
}

fn main(rt: HostRuntime) -> io::Result<()> {
    Replayer::new().replay_all(&mut rt.stdin(), &mut rt.stdout())
}
