// The valve with the station mark, and the balance's thresholds on which it closes.
ghost use Rattle.std.specs.Prelude.{◌≡◌, not, ◌&&◌, ◌<◌, ◌^◌, pos};
ghost use Rattle.std.specs.Int.Signed.{le_z, lt_z};
ghost use Rattle.account.specs.Codes.{note_all, event_code};
ghost use Rattle.account.specs.Valve.{fresh_valve, is_fresh_valve, valve_set, valve_kept, commanded, command_codes, key_codes};
ghost use Rattle.account.specs.Thresholds.{past_threshold};

use crate::{Codes, Crossing, Event, Valve};
use units::{Charge, Millionths, Signed};

impl Valve {
    // Mark "allow" and closed.
    pub fn fresh() -> Valve
        ensures { result ≡ fresh_valve }
    {
        Valve {
            allow: true,
            opened: false,
        }
    }

    // The derived `==`, by the name that the rules have.
    #[tactic(auto, unfolding(crate::specs::Valve::is_fresh_valve))]
    pub fn is_fresh(self) -> bool
        ensures { result ≡ is_fresh_valve self }
    {
        self == Valve::fresh()
    }

    pub fn set(self, opened: bool) -> Valve
        ensures { result ≡ valve_set self opened }
    {
        Valve { opened, ..self }
    }

    // Open only where it was and `still` holds.
    pub fn kept(self, still: bool) -> Valve
        ensures { result ≡ valve_kept self still }
    {
        self.set(self.opened & still)
    }

    // The mark set by the station; "forbid" closes the valve.
    pub fn commanded(self, allow: bool) -> Valve
        ensures { result ≡ commanded self allow }
    {
        Valve {
            allow,
            ..self.kept(allow)
        }
    }

    #[tactic(auto, unfolding(crate::specs::Codes::note_all, crate::specs::Valve::command_codes))]
    pub fn command_codes(self, allow: bool, codes: Codes) -> Codes
        ensures { result ≡ note_all codes (command_codes self allow) }
    {
        codes
            .note(Event::Commanded)
            .note_if(self.opened & !allow, Event::ValveClosed)
    }

    #[tactic(auto, unfolding(crate::specs::Valve::key_codes))]
    pub fn key_codes(self, codes: Codes) -> Codes
        ensures { result ≡ note_all codes (key_codes self) }
    {
        codes.note_if(!self.opened, Event::ValveOpened)
    }
}

// Whether a balance crosses a limit from above.
pub(crate) fn crosses(was: Millionths, is: Millionths, limit: Charge) -> bool
    requires { limit.0 < 2 ^ 62 }
    ensures { result ≡ (not (le_z was.0 (pos limit.0)) && le_z is.0 (pos limit.0)) }
{
    !was.at_or_below(limit) & is.at_or_below(limit)
}

// Whether a balance goes below zero.
pub(crate) fn goes_below_zero(was: Millionths, is: Millionths) -> bool
    ensures { result ≡ (not (lt_z was.0 (pos 0)) && lt_z is.0 (pos 0)) }
{
    !was.negative() & is.negative()
}

impl Crossing {
    // One threshold.
    #[tactic(auto, unfolding(crate::specs::Codes::note_all, crate::specs::Thresholds::valve_after, crate::specs::Thresholds::threshold_codes))]
    pub(crate) fn past_threshold(self, hit: bool, event: Event, closes: bool) -> Crossing
        ensures { result ≡ past_threshold self hit (event_code event) closes }
    {
        if !hit {
            return self;
        }
        let shuts = closes & self.opened;
        let codes = self.codes.note(event).note_if(shuts, Event::ValveClosed);
        Crossing {
            opened: self.opened & !closes,
            codes,
        }
    }
}
