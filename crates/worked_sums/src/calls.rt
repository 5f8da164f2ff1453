// The calls that the checks make. Those without a date are made on 20200115, second 0. A slot and a command are any numbers, as
// the C interface takes them.
use calendar::Stamp;
use meter::{Alarms, Call, Command, Key, Load, Pulses, Recharge, Tick};
use units::{Hundredths, TenThousandths};

// A call with the record that is lent beside it; only a load has one.
#[derive(Clone, Copy)]
pub struct Request<'a> {
    pub call: Call,
    pub record: &'a [u8],
}

impl From<Call> for Request<'static> {
    fn from(call: Call) -> Request<'static> {
        Request { call, record: b"" }
    }
}

const MIDNIGHT: Stamp = Stamp {
    date: 20_200_115,
    second: 0,
};

pub fn pulses(n: u32) -> Request<'static> {
    pulses_at(MIDNIGHT.date, MIDNIGHT.second, n)
}

pub fn pulses_at(date: u32, second: u32, n: u32) -> Request<'static> {
    let stamp = Stamp { date, second };
    let count = Hundredths(n);
    Request::from(Call::Pulses(Pulses { stamp, count }))
}

pub fn recharge(value: u64, serial: u32) -> Request<'static> {
    Request::from(Call::Recharge(Recharge {
        stamp: MIDNIGHT,
        amount: TenThousandths(value),
        serial,
    }))
}

pub fn load(slot: u32, record: &[u8]) -> Request<'_> {
    load_on(MIDNIGHT.date, slot, record)
}

pub fn load_on(date: u32, slot: u32, record: &[u8]) -> Request<'_> {
    let stamp = Stamp { date, second: 0 };
    Request {
        call: Call::Load(Load { stamp, slot }),
        record,
    }
}

pub fn alarms(alarm_1: u32, alarm_2: u32) -> Request<'static> {
    Request::from(Call::Alarms(Alarms {
        stamp: MIDNIGHT,
        alarm_1,
        alarm_2,
    }))
}

pub fn command(code: u32) -> Request<'static> {
    Request::from(Call::Command(Command {
        stamp: MIDNIGHT,
        code,
    }))
}

pub fn key() -> Request<'static> {
    Request::from(Call::Key(Key { stamp: MIDNIGHT }))
}

pub fn tick(date: u32, second: u32) -> Request<'static> {
    let stamp = Stamp { date, second };
    Request::from(Call::Tick(Tick { stamp }))
}
