// The payable plan: the moving that nobody can be charged costs nothing, string by string and round by round.
ghost use Rattle.std.specs.Prelude.{◌≡◌, ◌+◌, ◌≤◌, ◌&&◌, leb};
ghost use Rattle.rules.specs.Demand.{hold_of};
ghost use Rattle.laws.proofs.Lawful.{PlanString};
ghost use Rattle.verdict.specs.inner.Asked.{Ready};
ghost use Rattle.charging.specs.Payable.{least_due, least_hold, chargeable, cost_if, uncharged, payable};
ghost use Rattle.tries.specs.Tries.{passes_payably};

use super::breaks::{longest_hold, sharp_break};
use super::free::moved_freely;
use rules::{BatteryString, Plan};

// Whether a job of one string can lose the bank to a job of another, the taker: that came a day later at the earliest and is due strictly
// sooner, and the job on the bank has used a day and has one left.
#[tactic(auto, using(crate::proofs::Holding::holds))]
fn can_lose(p: Plan, s: BatteryString, taker: BatteryString) -> bool
    requires plan_string { PlanString p s }
    requires plan_string_2 { PlanString p taker }
    ensures { result ≡ leb (least_due taker) s.d.0 && leb least_hold (hold_of p s) }
{
    taker.d.0 - taker.j.0 + 2 <= s.d.0 && 2 <= longest_hold(p, s)
}

// Whether the string at a place can be charged: it may take the bank, and another can lose it to it.
fn is_chargeable(p: Plan, place: usize) -> bool
    requires ready { Ready p }
    requires le_place { (1 ≤ place) × (place ≤ 10) }
    ensures { result ≡ chargeable p place }
{
    if p.n < place {
        return false;
    }
    let taker = p.strings[place - 1];
    if taker.x != 1 {
        return false;
    }
    for (i, s) in p.strings[..p.n].iter().enumerate() {
        if i + 1 != place && can_lose(p, *s, taker) {
            return true;
        }
    }
    false
}

// The string, with the moving cost 0 unless it may be charged.
fn cost_if(charged: bool, s: BatteryString) -> BatteryString
    ensures { result ≡ cost_if charged s }
{
    if charged { s } else { moved_freely(s) }
}

// A round: every string that is not chargeable moves freely.
fn round(p: Plan) -> Plan
    requires { Ready p }
    ensures { result ≡ uncharged p }
{
    let mut strings = p.strings;
    for (i, s) in strings.iter_mut().enumerate() {
        *s = cost_if(is_chargeable(p, i + 1), *s);
    }
    Plan { strings, ..p }
}

// As many rounds as there are strings: a cost less can leave another that is not chargeable.
fn payable_plan(p: Plan) -> Plan
    requires { Ready p }
    ensures { result ≡ payable p }
{
    let mut left = p;
    for _ in 0..p.n {
        left = round(left);
    }
    left
}

// Whether the payable plan passes sharply.
pub(crate) fn passes_payably(p: Plan) -> bool
    requires { Ready p }
    ensures { result ≡ passes_payably p }
{
    sharp_break(payable_plan(p)).is_none()
}
