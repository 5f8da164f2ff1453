// The account (balance, last serial, alarms), the valve with the station mark, and event codes.
#![tactic(auto)]

mod events; // events.rt: event codes
mod thresholds; // thresholds.rt: the valve, and the thresholds that close it

ghost use Rattle.std.specs.Prelude.{◌≡◌, ◌≤◌, ◌<◌, ◌^◌};
ghost use Rattle.units.specs.Money.{Small};
ghost use Rattle.account.specs.Account.{highest_serial, fresh_account, is_fresh_account, recharge_refusal, recharged, alarms_good, alarmed, charged, account_good};
ghost use Rattle.account.specs.Thresholds.{crossing_of};

use refusal::Refusal;
use units::{Charge, Hundredths, Millionths, TenThousandths};

// The balance, the last accepted serial (0 before the first), and the two alarms in whole yuan. A host
// lends it with any numbers in it, so its type states no fact, and each method asks for what it needs.
#[repr(C)]
#[derive(Clone, Copy, PartialEq, Eq)]
pub struct Account {
    pub balance: Millionths,
    pub serial: u32,
    pub alarm_1: u32,
    pub alarm_2: u32,
}

// The station mark, "allow" or "forbid", and the valve.
#[repr(C)]
#[derive(Clone, Copy, PartialEq, Eq)]
pub struct Valve {
    pub allow: bool,
    pub opened: bool,
}

// What a call tells besides its answer, each with its code; the code of a plan's end is "80 02 00 12".
#[derive(Clone, Copy, Debug, PartialEq, Eq)]
pub enum Event {
    PlanEnded = 0x80020012,
    ValveOpened = 0x11,
    ValveClosed = 0x12,
    Recharged = 0x21,
    Set = 0x27,
    Commanded = 0x2B,
    AtAlarm1 = 0x2E,
    AtAlarm2 = 0x2F,
    AtZero = 0x30,
    InDebt = 0x33,
}

// Event codes in their order. A host reads the array and its count, so it is no list of events.
#[repr(C)]
#[derive(Clone, Copy, PartialEq, Eq)]
pub struct Codes {
    pub count: usize,
    pub list: [u32; Codes::MOST],
}

// A valve on its way past the thresholds, with the codes so far.
#[derive(Clone, Copy, PartialEq, Eq)]
pub struct Crossing {
    pub opened: bool,
    pub codes: Codes,
}

// Refusal 23 unless this holds. The C header names each alarm, so they go as two numbers.
#[tactic(auto, unfolding(crate::specs::Account::alarms_good))]
pub fn alarms_good(alarm_1: u32, alarm_2: u32) -> bool
    ensures { result ≡ alarms_good alarm_1 alarm_2 }
{
    (0 < alarm_2) & ((alarm_2 < alarm_1) & (alarm_1 <= Account::MOST_ALARM))
}

impl Account {
    // The alarms of a fresh meter and the highest, in whole yuan; the highest serial and the highest balance.
    pub const ALARM_1: u32 = 20;

    pub const ALARM_2: u32 = 5;

    pub const MOST_ALARM: u32 = 999_999;

    pub const MOST_SERIAL: u32 = 65_535;

    pub const TOP: Charge = Millionths::TOP;

    // Balance 0, no serial yet, the alarms of a fresh meter.
    pub fn fresh() -> Account
        ensures { result ≡ fresh_account }
    {
        Account {
            balance: Millionths(0),
            serial: 0,
            alarm_1: Account::ALARM_1,
            alarm_2: Account::ALARM_2,
        }
    }

    // The derived `==`, by the name that the rules have.
    #[tactic(auto, unfolding(crate::specs::Account::is_fresh_account))]
    pub fn is_fresh(self) -> bool
        ensures { result ≡ is_fresh_account self }
    {
        self == Account::fresh()
    }

    // The bounds of an account that a host hands in.
    #[tactic(auto, unfolding(crate::specs::Account::account_good))]
    pub fn is_good(self, total: Hundredths) -> bool
        ensures { result ≡ account_good self total.0 }
    {
        (self.serial <= Account::MOST_SERIAL)
            & (alarms_good(self.alarm_1, self.alarm_2)
                & self.balance.in_bounds(Account::TOP, total))
    }

    // Refusals 15 to 20, in their order.
    #[tactic(auto, unfolding(crate::specs::Account::recharge_refusal))]
    pub fn recharge_refusal(self, amount: TenThousandths, serial: u32) -> Result<(), Refusal>
        requires small { Small self.balance.0 }
        requires serial_bound { self.serial ≤ highest_serial }
        ensures { result ≡ recharge_refusal self amount.0 serial }
    {
        refusal::need(
            (1 <= serial) & (serial <= Account::MOST_SERIAL),
            Refusal::Serial,
        )?;
        refusal::need(serial != self.serial, Refusal::SerialAgain)?;
        refusal::need(self.serial <= serial, Refusal::SerialBelow)?;
        refusal::need(serial <= self.serial + 1, Refusal::SerialAbove)?;
        refusal::need(1 <= amount.0, Refusal::NoAmount)?;
        refusal::need(self.balance.takes(Account::TOP, amount), Refusal::Balance)
    }

    pub fn recharged(self, amount: TenThousandths, serial: u32) -> Account
        requires small { Small self.balance.0 }
        requires amount_bound { amount.0 ≤ 2 ^ 55 }
        ensures { result ≡ recharged self amount.0 serial }
    {
        Account {
            balance: self.balance + amount.in_millionths(),
            serial,
            ..self
        }
    }

    pub fn alarmed(self, alarm_1: u32, alarm_2: u32) -> Account
        ensures { result ≡ alarmed self alarm_1 alarm_2 }
    {
        Account {
            alarm_1,
            alarm_2,
            ..self
        }
    }

    // A charge is any u64 in the C layout, so that it fits is asked here and in `crosses`.
    pub fn charged(self, added_charge: Charge) -> Account
        requires small { Small self.balance.0 }
        requires charge_bound { added_charge.0 < 2 ^ 62 }
        ensures { result ≡ charged self added_charge.0 }
    {
        Account {
            balance: self.balance - added_charge,
            ..self
        }
    }

    // The balance falls to `is`: the valve and the codes.
    pub fn crossing(self, is: Millionths, opened: bool, codes: Codes) -> Crossing
        ensures { result ≡ crossing_of self is.0 opened codes }
    {
        let was = self.balance;
        let alarm_1 = thresholds::crosses(was, is, Charge::yuan(self.alarm_1));
        let alarm_2 = thresholds::crosses(was, is, Charge::yuan(self.alarm_2));
        let zero = thresholds::crosses(was, is, Charge(0));
        Crossing { opened, codes }
            .past_threshold(alarm_1, Event::AtAlarm1, false)
            .past_threshold(alarm_2, Event::AtAlarm2, true)
            .past_threshold(zero, Event::AtZero, true)
            .past_threshold(thresholds::goes_below_zero(was, is), Event::InDebt, false)
    }
}
