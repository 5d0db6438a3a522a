// A plan that is ready to be judged: it is lawful, and the numbers that its judges ask for again and again are known.
ghost use Rattle.std.specs.Prelude.{◌≡◌, length, MatchResult, Err};
ghost use Rattle.faults.specs.Checks.{Lawful};
ghost use Rattle.rules.specs.Plan.{strings_of, multiple_of, leeway_min, d_max};
ghost use Rattle.rules.specs.Refusal.{plan_check, set_check};
ghost use Rattle.rules.specs.Search.{with_set};
ghost use Rattle.verdict.specs.inner.Asked.{Ready, Ready-prop};

use super::limits::{largest_d, smallest_leeway};
use super::permissions::with_set;
use bounds::{multiple, plan_check, set_check};
use faults::Refusal;
use rules::{BatteryString, Plan};

// A lawful plan with its H, its smallest D − J and its largest D.
#[derive(Clone, Copy)]
pub(crate) struct ReadyPlan {
    pub(crate) plan: Plan,
    pub(crate) multiple: u32,
    pub(crate) first: u32,
    pub(crate) last: u32,
    ghost ready: { Ready plan } by { Ready-prop plan },
    ghost multiple_is: { multiple ≡ multiple_of plan },
    ghost first_is: { first ≡ leeway_min plan },
    ghost last_is: { last ≡ d_max plan },
}

impl ReadyPlan {
    fn of(plan: Plan) -> ReadyPlan
        requires { Ready plan }
        ensures exact { result.plan ≡ plan }
    {
        ReadyPlan {
            plan,
            multiple: multiple(plan),
            first: smallest_leeway(plan),
            last: largest_d(plan),
        }
    }

    // A plan, made ready where its check finds nothing.
    pub(crate) fn new(plan: Plan) -> Result<ReadyPlan, Refusal>
        ensures exact { MatchResult result (λ r. (r.plan ≡ plan) × (plan_check plan ≡ Lawful)) (λ e. plan_check plan ≡ Err e) }
    {
        plan_check(plan)?;
        Ok(ReadyPlan::of(plan))
    }

    // The plan with a set, made ready where the check of both finds nothing.
    pub(crate) fn new_with(plan: Plan, set: u32) -> Result<ReadyPlan, Refusal>
        ensures exact { MatchResult result (λ r. (r.plan ≡ with_set plan set) × (set_check plan set ≡ Lawful))
            (λ e. set_check plan set ≡ Err e) }
    {
        set_check(plan, set)?;
        Ok(ReadyPlan::of(with_set(plan, set)))
    }

    // The plan with a set. H, D − J and D do not depend on the permissions.
    pub(crate) fn with_set(self, set: u32) -> ReadyPlan
        ensures exact { result.plan ≡ with_set self.plan set }
    {
        ReadyPlan {
            plan: with_set(self.plan, set),
            multiple: self.multiple,
            first: self.first,
            last: self.last,
        }
    }

    // The strings by place: of the ten the first n. The walks over them add and compare in a `for`: a chain to a sum or a maximum over this
    // slice was tried, and its proof did not close.
    pub(crate) fn strings(&self) -> &[BatteryString]
        ensures { result.now ≡ strings_of self.now.plan }
    {
        &self.plan.strings[..self.plan.n]
    }
}
