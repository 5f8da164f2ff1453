// The seven calls. The course of six stands once, in `Registers::run` of crate `state`: each gives it its own refusals and its effect.
// Closures and no trait for a call: an `impl` of its stamp, refusals and effect is longer. A closure takes a call's arguments by value,
// which the checker reads sooner than references.
// Pulses have a course of their own, for speed and stack (docs/BENCHMARKS.md): no day turns on the
// clock's own date, and the plan in force is then the one that was looked up before admission.
ghost use Rattle.meter.specs.Call.{pulses as pulses_call, recharge as recharge_call, load as load_call, alarms as alarms_call, command as command_call, key as key_call, tick as tick_call, call_of};
ghost use Rattle.meter.specs.Machine.{meter_of, Answers};

use crate::{Accepted, Alarms, Call, Command, Key, Load, Machine, Pulses, Recharge, Tick, effects};
use account::Codes;
use records::held::Words;
use refusal::{Refusal, need};

impl Machine {
    // Pulses, n of them.
    pub fn pulses(self, words: &mut Words, p: Pulses) -> Result<Accepted, Refusal>
        ensures { Answers (meter_of self words.old) (pulses_call p) result words.new }
    {
        let was = self.registers.slots.in_force_on(self.registers.clock.date);
        let admitted = self.registers.admit(words, was.slot.is_some(), p.stamp);
        let Ok(date) = admitted else {
            return Err(admitted.unwrap_err());
        };
        self.registers.volumes.pulse_refusal(p.count)?;
        let mut s = self.registers;
        let mut codes = Codes::none();
        let mut f = was;
        if self.registers.clock.date < date {
            f = self.registers.slots.in_force_on(date);
            let t = self.registers.turn(words, date, p.stamp);
            s = t.registers;
            codes = t.codes;
        }
        Ok(Accepted::from(s.pulsed(f, p.stamp, p.count, codes)))
    }

    // A recharge bought at a counter.
    pub fn recharge(self, words: &mut Words, p: Recharge) -> Result<Accepted, Refusal>
        ensures { Answers (meter_of self words.old) (recharge_call p) result words.new }
    {
        self.registers.run(
            words,
            p.stamp,
            |_| self.registers.account.recharge_refusal(p.amount, p.serial),
            move |t, ()| effects::recharged(t, p),
        )
    }

    // A plan loaded into a slot; the record is a lent slice of any length.
    pub fn load(self, words: &mut Words, p: Load, bytes: &[u8]) -> Result<Accepted, Refusal>
        ensures { Answers (meter_of self words.old) (load_call p bytes.now) result words.new }
    {
        self.registers.run(
            words,
            p.stamp,
            |date| self.registers.slots.checked_load(date, p.slot, bytes),
            |t, (slot, plan)| effects::loaded(t, slot, plan),
        )
    }

    // The two alarms set, in whole yuan.
    pub fn alarms(self, words: &mut Words, p: Alarms) -> Result<Accepted, Refusal>
        ensures { Answers (meter_of self words.old) (alarms_call p) result words.new }
    {
        self.registers.run(
            words,
            p.stamp,
            move |_| need(account::alarms_good(p.alarm_1, p.alarm_2), Refusal::Alarms),
            move |t, ()| effects::alarmed(t, p),
        )
    }

    // A command of the master station: 0 forbids, 1 allows.
    pub fn command(self, words: &mut Words, p: Command) -> Result<Accepted, Refusal>
        ensures { Answers (meter_of self words.old) (command_call p) result words.new }
    {
        self.registers.run(
            words,
            p.stamp,
            move |_| need((p.code == 0) | (p.code == 1), Refusal::Command),
            move |t, ()| effects::commanded(t, p),
        )
    }

    // The household's key.
    pub fn key(self, words: &mut Words, p: Key) -> Result<Accepted, Refusal>
        ensures { Answers (meter_of self words.old) (key_call p) result words.new }
    {
        self.registers.run(
            words,
            p.stamp,
            |date| need(self.registers.key_allowed(date), Refusal::Key),
            move |t, ()| effects::opened(t, p),
        )
    }

    // The clock only.
    pub fn tick(self, words: &mut Words, p: Tick) -> Result<Accepted, Refusal>
        ensures { Answers (meter_of self words.old) (tick_call p) result words.new }
    {
        self.registers
            .run(words, p.stamp, |_| Ok(()), |t, ()| Accepted::from(t))
    }

    // Any of the calls; a load alone looks at the bytes.
    pub fn call(self, words: &mut Words, c: Call, bytes: &[u8]) -> Result<Accepted, Refusal>
        ensures { Answers (meter_of self words.old) (call_of c bytes.now) result words.new }
    {
        match c {
            Call::Pulses(p) => self.pulses(words, p),
            Call::Recharge(p) => self.recharge(words, p),
            Call::Load(p) => self.load(words, p, bytes),
            Call::Alarms(p) => self.alarms(words, p),
            Call::Command(p) => self.command(words, p),
            Call::Key(p) => self.key(words, p),
            Call::Tick(p) => self.tick(words, p),
        }
    }
}
