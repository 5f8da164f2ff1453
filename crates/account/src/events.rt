// Event codes, in the order in which a call gives them.
ghost use Rattle.std.specs.Prelude.{◌≡◌};
ghost use Rattle.account.specs.Codes.{no_codes, noted, code_if, note_all, event_code};
ghost use Rattle.account.specs.Valve.{expiry_codes};

use crate::{Codes, Event};

// The code of an event.
impl From<Event> for u32 {
    ghost from_gives = { λ e n. n ≡ event_code e };

    fn from(event: Event) -> u32 {
        event as u32
    }
}

impl Codes {
    // How many an answer holds; no call gives more than five.
    pub const MOST: usize = 8;

    pub fn none() -> Codes
        ensures { result ≡ no_codes }
    {
        Codes {
            count: 0,
            list: [0; Codes::MOST],
        }
    }

    // One event more. A copy is written, as `..self` writes no element of an array.
    #[tactic(auto, unfolding(crate::specs::Codes::noted))]
    pub fn note(self, event: Event) -> Codes
        ensures { result ≡ noted self (event_code event) }
    {
        let n = self.count;
        if n >= Codes::MOST {
            return self;
        }
        let mut next = self;
        next.list[n] = u32::from(event);
        next.count = n + 1;
        next
    }

    // One event more where `given` holds.
    #[tactic(auto, unfolding(crate::specs::Codes::note_all))]
    pub fn note_if(self, given: bool, event: Event) -> Codes
        ensures { result ≡ note_all self (code_if given (event_code event)) }
    {
        if given {
            return self.note(event);
        }
        self
    }

    // The codes of turning the day: whether a plan was in force, whether one is, and the valve.
    pub fn expiry(was: bool, is: bool, opened: bool) -> Codes
        ensures { result ≡ note_all no_codes (expiry_codes was is opened) }
    {
        Codes::none()
            .note_if(was & !is, Event::PlanEnded)
            .note_if(opened & !is, Event::ValveClosed)
    }
}
