// A meter and the ledger's view of it side by side, as a journal of calls is replayed:
// each call runs on the meter, and the ledger is told the arguments of an accepted one.
#![tactic(auto)]

ghost use Rattle.std.specs.Prelude.{◌≡◌};
ghost use Rattle.meter.specs.Call.{call_of};
ghost use Rattle.running_ledger.specs.SameLedger.{entered_running};
ghost use Rattle.audited_meter.specs.AuditedMeter.{new_audited, called};

use account::Codes;
use meter::{Call, Meter};
use refusal::Refusal;
use running_ledger::RunningLedger;

#[derive(Clone, Copy)]
pub struct AuditedMeter {
    pub meter: Meter,
    pub running: RunningLedger,
}

// The audited meter after a call, and what the call told.
#[derive(Clone, Copy)]
pub struct CallResult {
    pub audited: AuditedMeter,
    pub done: Result<Codes, Refusal>,
}

impl AuditedMeter {
    // A fresh meter and a blank ledger.
    #[tactic(auto, unfolding(crate::specs::AuditedMeter::new_audited))]
    pub fn new() -> AuditedMeter
        ensures { result ≡ new_audited }
    {
        AuditedMeter {
            meter: Meter::fresh(),
            running: RunningLedger::blank(),
        }
    }

    // Any of the calls; a load alone looks at the bytes.
    #[tactic(auto, unfolding(crate::specs::AuditedMeter::called))]
    pub fn call(self, c: Call, bytes: &[u8]) -> CallResult
        ensures { result ≡ called self (call_of c bytes.now) }
    {
        let mut meter = self.meter;
        let answer = meter.machine.call(&mut meter.held, c, bytes);
        let done = meter.machine.settle(answer);
        let running = match done {
            Ok(_) => entered(self.running, c, bytes),
            Err(_) => self.running,
        };
        CallResult {
            audited: AuditedMeter { meter, running },
            done,
        }
    }
}

// The ledger told of an accepted call; it looks at pulses, recharges and loads.
#[tactic(auto, unfolding(running_ledger::specs::SameLedger::entered_running))]
fn entered(running: RunningLedger, c: Call, bytes: &[u8]) -> RunningLedger
    ensures { result ≡ entered_running running (call_of c bytes.now) }
{
    match c {
        Call::Pulses(p) => running.pulsed(p.stamp.date, p.count),
        Call::Recharge(p) => running.recharged(p.amount),
        Call::Load(p) => running.loaded(p.slot, bytes),
        Call::Alarms(_) | Call::Command(_) | Call::Key(_) | Call::Tick(_) => running,
    }
}
