// Document 01, "Bounds of a meter": what a meter that a host hands in must keep.
ghost use Rattle.std.specs.Prelude.{◌≡◌};
ghost use Rattle.slots.specs.World.{real};
ghost use Rattle.slots.specs.Slots.{any_in_force};
ghost use Rattle.state.specs.State.{state_of};
ghost use Rattle.state.specs.Bounds.{is_fresh, volumes_good, bounded};

use crate::{Registers, Volumes};
use account::Account;
use records::held::Words;
use records::{Limits, held};

impl Volumes {
    #[tactic(auto, unfolding(crate::specs::Bounds::volumes_good))]
    fn is_good(self) -> bool
        ensures { result ≡ volumes_good self }
    {
        (self.total.0 <= Volumes::MOST_TOTAL) & (self.unpriced.0 <= self.total.0)
    }
}

impl Registers {
    #[tactic(auto, unfolding(crate::specs::State::state_with, crate::specs::Bounds::is_fresh, crate::specs::Bounds::is_fresh_volumes))]
    fn is_fresh(&self, words: &Words) -> bool
        ensures { result ≡ is_fresh (state_of self.now words.now) }
    {
        (self.clock.second == 0)
            & (self.account.is_fresh()
                & (self.slots.is_fresh()
                    & ((self.volumes == Volumes::fresh())
                        & (self.valve.is_fresh()
                            & (self.periods.is_fresh() & held::is_fresh(words))))))
    }

    // Whether the meter is within its bounds, `some` being whether a plan is in force on the clock's date. The held records are
    // tested first, while little else is in the processor's registers.
    #[tactic(auto, unfolding(crate::specs::State::state_with, crate::specs::Bounds::bounded, crate::specs::Bounds::stamp_good, crate::specs::Bounds::state_good, calendar::specs::Stamp::is_stamp, slots::specs::Bounds::without_plan_good))]
    pub(crate) fn bounded_on(&self, words: &Words, some: bool) -> bool
        requires { some ≡ any_in_force real self.now.slots self.now.clock.date }
        ensures { result ≡ bounded real (state_of self.now words.now) }
    {
        let limits = Limits {
            top: Account::TOP,
            total: self.volumes.total,
        };
        let kept = held::is_good(words, limits);
        if self.clock.date == 0 {
            return self.is_fresh(words);
        }
        self.clock.is_stamp()
            & (self.volumes.is_good()
                & (self.account.is_good(self.volumes.total)
                    & (self.slots.is_good(self.clock.date, self.volumes.total)
                        & (self.periods.is_good(self.volumes.total)
                            & (kept & self.slots.without_plan_good(some, self.valve.opened))))))
    }

    // Whether the meter is within its bounds: refusal 0 where it is not.
    pub fn is_bounded(&self, words: &Words) -> bool
        ensures { result ≡ bounded real (state_of self.now words.now) }
    {
        self.bounded_on(words, self.slots.any_in_force(self.clock.date))
    }
}
