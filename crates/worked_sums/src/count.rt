// A line for each check, and how many there were.
use crate::checks::Check;
use refusal::Refusal;
use std::fmt::Display;
use std::io;
use std::io::Stdout;

// Where the lines go, the checks so far, and those that failed.
#[derive(Clone, Copy)]
pub struct Count {
    out: Stdout,
    checks: u32,
    wrong: u32,
}

impl Count {
    pub fn new(out: Stdout) -> Count {
        Count {
            out,
            checks: 0,
            wrong: 0,
        }
    }

    pub fn say(&mut self, ok: bool, name: impl Display + Drop) -> io::Result<()> {
        let out = self.out;
        self.checks = self.checks.saturating_add(1);
        if ok {
            return println!(out; "ok {name}");
        }
        self.wrong = self.wrong.saturating_add(1);
        println!(out; "WRONG {name}")
    }

    // By the number of the refusal that is wanted, and a name.
    fn say_numbered(&mut self, ok: bool, wanted: Refusal, name: &str) -> io::Result<()> {
        self.say(ok, format_args!("{}: {name}", u8::from(wanted)))
    }

    pub fn say_refused(
        &mut self,
        found: Option<Refusal>,
        wanted: Refusal,
        name: &str,
    ) -> io::Result<()> {
        self.say_numbered(found == Some(wanted), wanted, name)
    }

    // Each check by its name, before it the number of the refusal, if one is wanted.
    pub fn say_all(&mut self, checks: &[Check<'_>]) -> io::Result<()> {
        for check in checks {
            match check.refusal {
                Some(refusal) => self.say_numbered(check.holds(), refusal, check.name)?,
                None => self.say(check.holds(), check.name)?,
            }
        }
        Ok(())
    }

    pub fn sum_up(&self) -> io::Result<()> {
        println!(self.out; "{} checks, {} wrong", self.checks, self.wrong)
    }
}
