// Document 01, "Read a plan" and "Write a plan": refusals 2 to 7.
ghost use Rattle.std.specs.Prelude.{◌≡◌, true, cond, ◌&&◌, ◌≤◌, ◌<◌};
ghost use Rattle.plan.specs.Plan.{most_steps, cycle, has_extra};
ghost use Rattle.plan.specs.Rules.{every, eight_digits, pair_good, steps_good, word_good, numbers_good, extra_dates, dates_good, extra_days, some_day, priced, plan_refusal, is_good};

use crate::Plan;
use calendar::Cycle;
use refusal::{Refusal, need};

fn eight_digits(x: u64) -> bool
    ensures { result ≡ eight_digits x }
{
    x <= Plan::MOST_NUMBER as u64
}

impl Plan {
    #[tactic(auto, unfolding(crate::specs::Rules::steps_good))]
    fn steps_good(self) -> bool
        ensures { result ≡ steps_good self }
    {
        (1..=Plan::MOST_STEPS).contains(&usize::from(self.steps))
    }

    #[tactic(auto, unfolding(crate::specs::Rules::word_good))]
    fn word_good(self) -> bool
        ensures { result ≡ word_good self }
    {
        self.steps < 2 || (1..=5).contains(&self.word)
    }

    fn extra_good(self) -> bool
        ensures { result ≡ cond (has_extra self) (eight_digits self.extra_1 && eight_digits self.extra_2) true }
    {
        !self.has_extra()
            || (eight_digits(self.extra_1 as u64) && eight_digits(self.extra_2 as u64))
    }

    fn pairs_good(self) -> bool
        ensures { result ≡ every (pair_good self) self.steps }
    {
        let n = self.steps as usize;
        let mut widths = self.widths.iter().take(n);
        let mut prices = self.prices.iter().take(n);
        widths.all(|width| eight_digits(width.0 as u64)) & prices.all(|price| eight_digits(price.0))
    }

    #[tactic(auto, unfolding(crate::specs::Rules::numbers_good))]
    fn numbers_good(self) -> bool
        ensures { result ≡ numbers_good self }
    {
        eight_digits(self.start as u64)
            && (eight_digits(self.end as u64) && (self.extra_good() && self.pairs_good()))
    }

    fn extra_dates_good(self) -> bool
        ensures { result ≡ extra_dates (cycle self) self }
    {
        match self.cycle() {
            Cycle::Window => calendar::is_date(self.extra_1) && calendar::is_date(self.extra_2),
            Cycle::Runs => calendar::is_date(self.extra_1),
            _ => true,
        }
    }

    #[tactic(auto, unfolding(crate::specs::Rules::dates_good))]
    fn dates_good(self) -> bool
        ensures { result ≡ dates_good self }
    {
        calendar::is_date(self.start) && (calendar::is_date(self.end) && self.extra_dates_good())
    }

    fn extra_days_good(self) -> bool
        ensures { result ≡ extra_days (cycle self) self }
    {
        match self.cycle() {
            Cycle::Window => (self.extra_1 < self.extra_2)
                & ((self.start < self.extra_2) & (self.extra_1 < self.end)),
            Cycle::Runs => 1 <= self.extra_2,
            _ => true,
        }
    }

    #[tactic(auto, unfolding(crate::specs::Rules::some_day))]
    fn some_day(self) -> bool
        ensures { result ≡ some_day self }
    {
        self.start < self.end && self.extra_days_good()
    }

    fn priced(self) -> bool
        requires { self.steps ≤ most_steps }
        ensures { result ≡ priced self }
    {
        let n = self.steps as usize;
        self.prices[..n].iter().all(|price| 1 <= price.0)
    }

    // Refusals 2 to 7, in their order.
    #[tactic(auto, unfolding(crate::specs::Rules::plan_refusal), using(crate::proofs::GoodPlan::good))]
    pub fn plan_refusal(self) -> Result<(), Refusal>
        ensures { result ≡ plan_refusal self }
    {
        need(self.steps_good(), Refusal::Steps)?;
        need(self.word_good(), Refusal::CycleWord)?;
        need(self.numbers_good(), Refusal::Digits)?;
        need(self.dates_good(), Refusal::Dates)?;
        need(self.some_day(), Refusal::NoDay)?;
        need(self.priced(), Refusal::NoPrice)
    }

    // Whether none of them refuses the plan.
    #[tactic(auto, unfolding(crate::specs::Rules::is_good))]
    pub fn is_good(self) -> bool
        ensures { result ≡ is_good self }
    {
        self.plan_refusal().is_ok()
    }
}
