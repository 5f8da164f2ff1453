// A call on a meter, and how it should be answered.
use crate::calls::Request;
use crate::setup::Start;
use meter::Meter;
use refusal::Refusal;

// A call on the meter that the setup makes, the refusal that is wanted, if one is, and what the check is called.
#[derive(Clone, Copy)]
pub struct Check<'a> {
    start: Start,
    request: Request<'a>,
    pub refusal: Option<Refusal>,
    pub name: &'static str,
}

impl Start {
    pub fn accepts<'a>(self, request: Request<'a>, name: &'static str) -> Check<'a> {
        Check {
            start: self,
            request,
            refusal: None,
            name,
        }
    }

    pub fn refuses<'a>(
        self,
        request: Request<'a>,
        refusal: Refusal,
        name: &'static str,
    ) -> Check<'a> {
        Check {
            refusal: Some(refusal),
            ..self.accepts(request, name)
        }
    }
}

impl Check<'_> {
    // Whether the call is answered so and, where it is refused, leaves the meter as it was.
    pub fn holds(self) -> bool {
        let before = self.start.meter();
        let (after, refusal) = run(before, self.request);
        refusal == self.refusal && (refusal.is_none() || same(after, before))
    }
}

// Whether two meters are alike in every field, records that are not held included.
fn same(one: Meter, other: Meter) -> bool {
    one.machine.registers == other.machine.registers && one.held == other.held
}

// The meter that a call left, and the refusal, if there was one.
pub fn run(mut meter: Meter, request: Request<'_>) -> (Meter, Option<Refusal>) {
    let answer = meter
        .machine
        .call(&mut meter.held, request.call, request.record);
    let refusal = meter.machine.settle(answer).err();
    (meter, refusal)
}
