// Document 01, "Days in force and cycles".
ghost use Rattle.std.specs.Prelude.{◌≡◌};
ghost use Rattle.plan.specs.InForce.{in_force, first_day, end_day, both_in_force};
ghost use Rattle.plan.specs.Cycles.{cycle_of};

use crate::Plan;
use calendar::Cycle;
use std::ops::Range;

impl Plan {
    // The days in force; with word 04 only those also in the window.
    #[tactic(auto, unfolding(crate::specs::InForce::first_day, crate::specs::InForce::end_day))]
    fn days(self) -> Range<u32>
        ensures { result ≡ record { start = first_day self; end = end_day self } }
    {
        match self.cycle() {
            Cycle::Window => self.start.max(self.extra_1)..self.end.min(self.extra_2),
            _ => self.start..self.end,
        }
    }

    pub fn in_force(self, d: u32) -> bool
        ensures { result ≡ in_force self d }
    {
        self.days().contains(&d)
    }

    // Whether some date on or after `d` is in force under both plans.
    #[tactic(auto, unfolding(crate::specs::InForce::both_in_force))]
    pub fn both_in_force(self, other: Plan, d: u32) -> bool
        ensures { result ≡ both_in_force self other d }
    {
        let (a, b) = (self.days(), other.days());
        d.max(a.start.max(b.start)) < a.end.min(b.end)
    }

    // The cycle that a date lies in, by a number that tells the plan's cycles apart, in their order.
    #[tactic(auto, unfolding(crate::specs::Cycles::cycle_of))]
    pub fn cycle_of(self, d: u32) -> u32
        ensures { result ≡ cycle_of self d }
    {
        match self.cycle() {
            Cycle::Runs => calendar::run_of(self.extra_1, self.extra_2, d),
            cycle => calendar::cycle_start(cycle, d),
        }
    }
}
