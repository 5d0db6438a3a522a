// The verdict on a plan, full and quick, the first pair that breaks the rule, whether a given pair does, the search for permissions, the
// plan with a set, and the plan's figures. No caller is trusted to have checked anything: each entry that judges checks first.
#![tactic(auto)]

mod asking;
mod growing;
mod holds;
mod limits;
mod pairs;
mod permissions;
mod ready;
mod remembering;
mod steps;

ghost use Rattle.std.specs.Prelude.{◌≡◌};
ghost use Rattle.rules.specs.Refusal.{verdict_answer, break_answer, set_answer, search_answer};
ghost use Rattle.rules.specs.Figures.{figures_answer};
ghost use Rattle.demand.specs.Quick.{quick_answer, quick_set_answer};
ghost use Rattle.verdict.specs.Breaks.{breaks_answer};

use days::Length;
use faults::Refusal;
pub use permissions::with_set;
use ready::ReadyPlan;
use rules::{Assign, Broken, Figures, Plan, Verdict};

// The verdict on a plan with the permissions it carries.
#[tactic(auto, unfolding(rules::specs::Refusal::verdict_answer))]
pub fn verdict(p: Plan) -> Result<Verdict, Refusal>
    ensures exact { result ≡ verdict_answer p }
{
    Ok(ReadyPlan::new(p)?.judged())
}

// The verdict on a plan with the permission set given.
#[tactic(auto, unfolding(rules::specs::Refusal::set_answer))]
pub fn verdict_with(p: Plan, set: u32) -> Result<Verdict, Refusal>
    ensures exact { result ≡ set_answer p set }
{
    Ok(ReadyPlan::new_with(p, set)?.judged())
}

// The quick verdict on a plan with the permissions it carries.
#[tactic(auto, unfolding(demand::specs::Quick::quick_answer))]
pub fn quick(p: Plan) -> Result<Verdict, Refusal>
    ensures exact { result ≡ quick_answer p }
{
    Ok(ReadyPlan::new(p)?.quickly_judged())
}

// The quick verdict on a plan with the permission set given.
#[tactic(auto, unfolding(demand::specs::Quick::quick_set_answer))]
pub fn quick_with(p: Plan, set: u32) -> Result<Verdict, Refusal>
    ensures exact { result ≡ quick_set_answer p set }
{
    Ok(ReadyPlan::new_with(p, set)?.quickly_judged())
}

// The first pair at which the rule breaks, whether the plan is overloaded or not.
#[tactic(auto, unfolding(rules::specs::Refusal::break_answer))]
pub fn first_break(p: Plan) -> Result<Option<Broken>, Refusal>
    ensures exact { result ≡ break_answer p }
{
    Ok(ReadyPlan::new(p)?.broken_at())
}

// Whether the rule breaks at a pair that the plan's own limit allows: ten additions, where a quick verdict costs thousands.
#[tactic(auto, unfolding(crate::specs::Breaks::breaks_answer))]
pub fn breaks(p: Plan, interval: Length, blocking: Length) -> bool
    ensures exact { result ≡ breaks_answer p interval.0 blocking.0 }
{
    match ReadyPlan::new(p) {
        Ok(ready) => ready.breaks_at(interval.0, blocking.0),
        Err(_) => false,
    }
}

// The passing set with the fewest ones, among equals the smallest number.
#[tactic(auto, unfolding(rules::specs::Refusal::search_answer))]
pub fn search(p: Plan) -> Result<Assign, Refusal>
    ensures exact { result ≡ search_answer p }
{
    Ok(ReadyPlan::new(p)?.first_set())
}

// H, the load and each string's E.
#[tactic(auto, unfolding(rules::specs::Figures::figures_answer))]
pub fn figures(p: Plan) -> Result<Figures, Refusal>
    ensures exact { result ≡ figures_answer p }
{
    Ok(ReadyPlan::new(p)?.figures())
}
