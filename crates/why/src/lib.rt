// Where a verdict comes from: the pair that it names, string by string, and the demand of every interval. No caller is trusted to have
// checked anything: a refused plan gives the refusal, or its line.
#![tactic(auto)]

mod asking;
mod checked;
mod limits;
mod pairs;
mod rows;
mod stretches;

ghost use Rattle.std.specs.Prelude.{◌≡◌};
ghost use Rattle.rules.specs.Lines.{refused_line};
ghost use Rattle.lines.specs.Pages.{page_of};
ghost use Rattle.why.specs.Shares.{blocker_shown, share_shown, demand_shown};
ghost use Rattle.why.specs.Named.{named_by, named_answer};
ghost use Rattle.why.specs.Stairs.{last_answer, stair_shown, stretch_shown, nowhere_shown};

use checked::CheckedPlan;
use days::Length;
use faults::Refusal;
use lines::Page;
use rules::{Plan, Verdict};

// What is explained of a plan.
#[derive(Clone, Copy)]
pub enum Subject {
    Overload,
    At { interval: Length, blocking: Length },
}

impl CheckedPlan {
    // What a verdict names; of a pass the tightest pair.
    #[tactic(auto, unfolding(crate::specs::Named::named_by, crate::specs::Named::pair_named))]
    fn named_by(&self, found: Verdict) -> Subject
        ensures exact { result ≡ named_by self.now.plan found }
    {
        match found {
            Verdict::Overload => Subject::Overload,
            Verdict::Fail {
                interval,
                blocking,
                ..
            } => Subject::At { interval, blocking },
            Verdict::Pass { .. } => {
                let spot = self.tightest_pair();
                Subject::At {
                    interval: Length(spot.l),
                    blocking: Length(spot.b),
                }
            }
        }
    }
}

// The overload, or the pair that is explained.
pub fn named(p: Plan) -> Result<Subject, Refusal>
    ensures exact { result ≡ named_answer p }
{
    let plan = CheckedPlan::new(p)?;
    Ok(plan.named_by(verdict::verdict(p)?))
}

// The line that the desk writes for a refusal.
#[tactic(auto, unfolding(rules::specs::Lines::lines_for))]
fn refused(refusal: Refusal) -> Page
    ensures exact { result ≡ page_of (refused_line refusal.fault refusal.at) }
{
    lines::written(Err(refusal))
}

#[tactic(auto, unfolding(crate::specs::Shares::blocker_shown))]
pub fn blocker_shown(p: Plan, interval: Length, blocking: Length) -> Page
    ensures exact { result ≡ page_of (blocker_shown p interval.0 blocking.0) }
{
    match CheckedPlan::new(p) {
        Ok(plan) => plan.blocker(interval.0, blocking.0),
        Err(refusal) => refused(refusal),
    }
}

#[tactic(auto, unfolding(crate::specs::Shares::share_shown))]
pub fn share_shown(p: Plan, interval: Length, blocking: Length, place: usize) -> Page
    ensures exact { result ≡ page_of (share_shown p interval.0 blocking.0 place) }
{
    match CheckedPlan::new(p) {
        Ok(plan) => plan.share_at(interval.0, blocking.0, place),
        Err(refusal) => refused(refusal),
    }
}

#[tactic(auto, unfolding(crate::specs::Shares::demand_shown))]
pub fn demand_shown(p: Plan, interval: Length, blocking: Length) -> Page
    ensures exact { result ≡ page_of (demand_shown p interval.0 blocking.0) }
{
    match CheckedPlan::new(p) {
        Ok(plan) => plan.demand(interval.0, blocking.0),
        Err(refusal) => refused(refusal),
    }
}

// The longest interval that the verdict compares; 0 for a refused plan.
#[tactic(auto, unfolding(crate::specs::Stairs::last_answer))]
pub fn last_interval(p: Plan) -> u32
    ensures exact { result ≡ last_answer p }
{
    match CheckedPlan::new(p) {
        Ok(plan) => plan.last_interval(),
        Err(_) => 0,
    }
}

#[tactic(auto, unfolding(crate::specs::Stairs::stair_shown))]
pub fn stair_shown(p: Plan, interval: Length) -> Page
    ensures exact { result ≡ page_of (stair_shown p interval.0) }
{
    match CheckedPlan::new(p) {
        Ok(plan) => plan.stair(interval.0),
        Err(refusal) => refused(refusal),
    }
}

#[tactic(auto, unfolding(crate::specs::Stairs::stretch_shown))]
pub fn stretch_shown(p: Plan, interval: Length) -> Page
    ensures exact { result ≡ page_of (stretch_shown p interval.0) }
{
    match CheckedPlan::new(p) {
        Ok(plan) => plan.stretch(interval.0),
        Err(refusal) => refused(refusal),
    }
}

#[tactic(auto, unfolding(crate::specs::Stairs::nowhere_shown))]
pub fn nowhere_shown(p: Plan) -> Page
    ensures exact { result ≡ page_of (nowhere_shown p) }
{
    match CheckedPlan::new(p) {
        Ok(plan) => plan.nowhere(),
        Err(refusal) => refused(refusal),
    }
}
