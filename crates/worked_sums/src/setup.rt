// The records, and the meters that the checks begin with.
use crate::calls::{Request, command, key, load, load_on, pulses_at, recharge, tick};
use crate::checks::run;
use account::Account;
use meter::Meter;
use state::Volumes;
use units::{Hundredths, Millionths};

// The meters that the checks begin with. Calls whose stamp is not named are made on 20200115, second 0.
#[derive(Clone, Copy)]
pub enum Start {
    Fresh,
    // Plan A in slot 1.
    Planned,
    // Planned, and a recharge of 100 yuan with serial 1.
    Recharged,
    // Recharged, and the key.
    Ready,
    // Ready, and a recharge with serial 2.
    Twice,
    // Ready, and the station's command 0.
    Forbidden,
    // Ready, with a total of 99,999,999 that the host put there.
    Full,
    // Ready, with a total of 100,000,000.
    Broken,
    // Table C.10 in slot 1 on 20150915.
    Tabled,
    // Ready, and 2,500 pulses in the last second of January: step 1 is full.
    January,
    // January, and a pulse in the first second of February.
    February,
    // February, and a tick in the first second of March.
    March,
}

pub const PLAN_A: &[u8; 66] =
    b"\x20\x20\x01\x01\x20\x21\x01\x01\x02\x01\x00\x00\x00\x00\x00\x00\x00\x00\x00\x00\x25\x00\x00\x02\x60\x00\x99\x99\x99\x99\x00\x03\x15\x00\x00\x00\x00\x00\x00\x00\x00\x00\x00\x00\x00\x00\x00\x00\x00\x00\x00\x00\x00\x00\x00\x00\x00\x00\x00\x00\x00\x00\x00\x00\x00\x00";

pub const TABLE_C10: &[u8; 66] =
    b"\x20\x15\x01\x01\x20\x18\x01\x01\x03\x04\x20\x15\x09\x15\x20\x16\x01\x01\x00\x00\x35\x17\x00\x02\x80\x00\x00\x00\x80\x00\x00\x03\x50\x00\x99\x99\x99\x99\x00\x04\x20\x00\x00\x00\x00\x00\x00\x00\x00\x00\x00\x00\x00\x00\x00\x00\x00\x00\x00\x00\x00\x00\x00\x00\x00\x00";

// Table C.11, with 00042000 for the last price, which is blank there.
pub const TABLE_C11: &[u8; 66] =
    b"\x20\x15\x01\x01\x20\x18\x01\x01\x03\x03\x20\x16\x01\x01\x20\x18\x01\x01\x00\x01\x20\x00\x00\x02\x80\x00\x00\x00\x80\x00\x00\x03\x50\x00\x99\x99\x99\x99\x00\x04\x20\x00\x00\x00\x00\x00\x00\x00\x00\x00\x00\x00\x00\x00\x00\x00\x00\x00\x00\x00\x00\x00\x00\x00\x00\x00";

// Plan A with two bytes that stand side by side altered.
pub fn altered(at: usize, two: [u8; 2]) -> [u8; 66] {
    let mut b = *PLAN_A;
    for (old, new) in b.iter_mut().skip(at).zip(two) {
        *old = new;
    }
    b
}

fn after(m: Meter, request: Request<'_>) -> Meter {
    let (meter, _) = run(m, request);
    meter
}

fn planned() -> Meter {
    after(Meter::fresh(), load(1, PLAN_A))
}

fn recharged(m: Meter, serial: u32) -> Meter {
    after(m, recharge(1_000_000, serial))
}

fn ready() -> Meter {
    after(recharged(planned(), 1), key())
}

fn with_total(n: u32) -> Meter {
    let mut m = ready();
    m.machine.registers.volumes = Volumes {
        total: Hundredths(n),
        unpriced: Hundredths(0),
    };
    m
}

// Ready, with one pulse in the total and a balance that the host put there.
pub fn with_balance(n: i64) -> Meter {
    let mut m = with_total(1);
    m.machine.registers.account = Account {
        balance: Millionths(n),
        serial: 1,
        alarm_1: 20,
        alarm_2: 5,
    };
    m
}

fn january() -> Meter {
    let m = after(ready(), pulses_at(20_200_131, 86_399, 2_499));
    after(m, pulses_at(20_200_131, 86_399, 1))
}

fn february() -> Meter {
    after(january(), pulses_at(20_200_201, 0, 1))
}

impl Start {
    pub fn meter(self) -> Meter {
        match self {
            Start::Fresh => Meter::fresh(),
            Start::Planned => planned(),
            Start::Recharged => recharged(planned(), 1),
            Start::Ready => ready(),
            Start::Twice => recharged(ready(), 2),
            Start::Forbidden => after(ready(), command(0)),
            Start::Full => with_total(99_999_999),
            Start::Broken => with_total(100_000_000),
            Start::Tabled => after(Meter::fresh(), load_on(20_150_915, 1, TABLE_C10)),
            Start::January => january(),
            Start::February => february(),
            Start::March => after(february(), tick(20_200_301, 0)),
        }
    }
}
