// A plan that its check found lawful.
ghost use Rattle.std.specs.Prelude.{◌≡◌, length, MatchResult, Err};
ghost use Rattle.faults.specs.Checks.{Lawful};
ghost use Rattle.rules.specs.Plan.{strings_of, d_max};
ghost use Rattle.rules.specs.Refusal.{plan_check};
ghost use Rattle.why.specs.Stairs.{last_interval};

use bounds::{multiple, plan_check};
use faults::Refusal;
use rules::{BatteryString, Plan};

// A lawful plan: whatever is explained is explained of one.
#[derive(Clone, Copy)]
pub(crate) struct CheckedPlan {
    pub(crate) plan: Plan,
    ghost lawful: { plan_check plan ≡ Lawful },
    ghost ten: { length plan.strings ≡ 10 },
}

impl CheckedPlan {
    // The plan, where its check finds nothing.
    pub(crate) fn new(plan: Plan) -> Result<CheckedPlan, Refusal>
        ensures exact { MatchResult result (λ checked. (checked.plan ≡ plan) × (plan_check plan ≡ Lawful))
            (λ e. plan_check plan ≡ Err e) }
    {
        plan_check(plan)?;
        Ok(CheckedPlan { plan })
    }

    // The strings that count, by place.
    pub(crate) fn strings(&self) -> &[BatteryString]
        ensures exact { result.now ≡ strings_of self.now.plan }
    {
        &self.plan.strings[..self.plan.n]
    }

    // The largest D.
    fn longest_due(&self) -> u32
        ensures exact { result ≡ d_max self.now.plan }
    {
        self.strings().iter().map(|s| s.d.0).max().unwrap_or(0)
    }

    // The longest interval that the verdict compares.
    #[tactic(auto, unfolding(crate::specs::Stairs::last_interval))]
    pub(crate) fn last_interval(&self) -> u32
        ensures exact { result ≡ last_interval self.now.plan }
    {
        self.longest_due() + multiple(self.plan) - 1
    }
}
