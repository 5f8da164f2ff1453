// Why an operation is refused: the one number of document 01, "Refusal by operation", by its name.
#![tactic(auto)]

ghost use Rattle.std.specs.Prelude.{◌≡◌, Ok};
ghost use Rattle.refusal.specs.Refusal.{need, number_of, acceptance_of};

// The refusals in the order of their numbers, 0 to 27.
#[derive(Clone, Copy, Debug, PartialEq, Eq)]
pub enum Refusal {
    OutOfBounds,
    RecordLength,
    Steps,
    CycleWord,
    Digits,
    Dates,
    NoDay,
    NoPrice,
    Stamp,
    Earlier,
    Slot,
    InForce,
    Overlap,
    Pulses,
    Total,
    Serial,
    SerialAgain,
    SerialBelow,
    SerialAbove,
    NoAmount,
    Balance,
    Command,
    Key,
    Alarms,
    NoPlan,
    NotHeld,
    BufferLength,
    NoHeavyDay,
}

impl From<Refusal> for u8 {
    ghost from_gives = { λ r n. n ≡ number_of r };

    fn from(refusal: Refusal) -> u8 {
        refusal as u8
    }
}

// A test that must hold, and the error where it does not: of a call its refusal.
pub fn need<E: Copy>(holds: bool, error: E) -> Result<(), E>
    ensures { result ≡ need holds error (Ok tt) }
{
    if holds {
        return Ok(());
    }
    Err(error)
}

// Any answer as a host sees it: accepted, or the refusal's number; 0 where it is accepted. A flag and
// a number: the C header lays it out so.
#[repr(C)]
#[derive(Clone, Copy, PartialEq, Eq)]
pub struct Acceptance {
    pub accepted: bool,
    pub refusal: u8,
}

impl<T: Copy> From<Result<T, Refusal>> for Acceptance {
    ghost from_gives = { λ a v. v ≡ acceptance_of a };

    fn from(answer: Result<T, Refusal>) -> Acceptance {
        match answer {
            Ok(_) => Acceptance {
                accepted: true,
                refusal: 0,
            },
            Err(refusal) => Acceptance {
                accepted: false,
                refusal: u8::from(refusal),
            },
        }
    }
}
