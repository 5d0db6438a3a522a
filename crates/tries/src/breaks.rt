// Where the sharp rule breaks: every interval in turn, with no blocking, then with each blocking by each string.
ghost use Rattle.std.specs.Prelude.{◌≡◌, ◌≤◌, unwrap_or};
ghost use mathlib.Core.List.{flat_map};
ghost use Rattle.base.specs.Count.{first_of, up_from};
ghost use Rattle.rules.specs.Demand.{hold_of, jobs, need, blocker_hold};
ghost use Rattle.laws.proofs.Lawful.{LawfulString, PlanString};
ghost use Rattle.sound.specs.Sharp.{demand_but};
ghost use Rattle.verdict.specs.inner.Asked.{Ready};
ghost use Rattle.tries.specs.Tries.{can_block, longest_block, blocked_breaks, breaks_in, is_broken, sharp_break, free_break};
ghost use Rattle.tries.specs.inner.Openings.{Points, blocker_says};

use super::asking::passes;
use super::free::with_free_moving;
use super::listing::delay_of;
use rules::{BatteryString, Plan};

// Who blocks an interval: the place of the string, and for how many days.
#[derive(Clone, Copy)]
pub(crate) struct Blocker {
    pub(crate) place: usize,
    pub(crate) days: u32,
}

// An interval at which the sharp rule breaks, and who blocks it, where it has to be blocked.
#[derive(Clone, Copy)]
pub(crate) struct FirstBreak {
    pub(crate) l: u32,
    pub(crate) blocker: Option<Blocker>,
}

// The longest that a job of the string holds the bank.
#[tactic(auto, using(crate::proofs::Holding::holds), unfolding(rules::specs::Demand::hold_of))]
pub(crate) fn longest_hold(p: Plan, s: BatteryString) -> u32
    requires { PlanString p s }
    ensures { result ≡ hold_of p s }
{
    s.c.0 + p.moving_cost(s).0 * s.x
}

// The jobs of a string in a window of w days.
#[tactic(auto, using(crate::proofs::Holding::windows))]
fn jobs_within(s: BatteryString, w: u32) -> u32
    requires { LawfulString s }
    ensures { result ≡ jobs s w }
{
    match w.checked_sub(s.d.0 - s.j.0) {
        Some(rest) => rest / s.t.0 + 1,
        None => 0,
    }
}

// What the string asks of an interval l with blocking b. One that may not take the bank has C for E.
#[tactic(auto, using(crate::proofs::Holding::asked))]
fn asks(p: Plan, l: u32, b: u32, s: BatteryString) -> u32
    requires plan_string { PlanString p s }
    requires l_bound { l ≤ 101000 }
    requires b_le_l { b ≤ l }
    ensures { result ≡ need p l b s }
{
    jobs_within(s, l - delay_of(b, s)) * longest_hold(p, s)
}

// What is asked of it by the blocking and by all strings, or by all but the one at a place.
fn demand_but(p: Plan, l: u32, b: u32, left_out: Option<usize>) -> u32
    requires ready { Ready p }
    requires l_bound { l ≤ 101000 }
    requires b_le_l { b ≤ l }
    ensures { result ≡ demand_but p l b (unwrap_or left_out 0) }
{
    let mut sum = b;
    for (i, s) in p.strings[..p.n].iter().enumerate() {
        if left_out != Some(i + 1) {
            sum += asks(p, l, b, *s);
        }
    }
    sum
}

// Whether a job of the string can block an interval of l days for b days.
fn can_block(p: Plan, l: u32, b: u32, s: BatteryString) -> bool
    requires { PlanString p s }
    ensures { result ≡ can_block p l b s }
{
    l < s.d.0 && b < longest_hold(p, s)
}

// How long a job of the string blocks an interval of l days at most.
#[tactic(auto, using(crate::proofs::Holding::holds), unfolding(rules::specs::Demand::blocker_hold))]
fn blocker_days(p: Plan, l: u32, s: BatteryString) -> u32
    requires { PlanString p s }
    ensures { result ≡ blocker_hold p l s }
{
    if l < s.d.0 { longest_hold(p, s) - 1 } else { 0 }
}

// The longest of all strings.
#[tactic(auto, unfolding(crate::specs::Tries::longest_block))]
fn longest_block(p: Plan, l: u32) -> u32
    requires { Ready p }
    ensures { result ≡ longest_block p l }
{
    let mut most = 0;
    for s in &p.strings[..p.n] {
        most = blocker_days(p, l, *s).max(most);
    }
    most.min(l)
}

// The first place whose string breaks the rule by blocking an interval of l days for b days. No string does where not even all of them ask
// for more than the interval.
fn blocker_at(p: Plan, l: u32, b: u32) -> Option<usize>
    requires ready { Ready p }
    requires l_bound { l ≤ 101000 }
    requires b_le_l { b ≤ l }
    requires le_b { 1 ≤ b }
    ensures { blocker_says result l b ≡ first_of (is_broken p) (blocked_breaks p l b) }
{
    if demand_but(p, l, b, None) <= l {
        return None;
    }
    for (i, s) in p.strings[..p.n].iter().enumerate() {
        let place = i + 1;
        if can_block(p, l, b, *s) && l < demand_but(p, l, b, Some(place)) {
            return Some(place);
        }
    }
    None
}

// The first break at an interval of l days, with some blocking.
fn blocked_in(p: Plan, l: u32) -> Option<FirstBreak>
    requires ready { Ready p }
    requires l_bound { l ≤ 101000 }
    ensures { Points result (first_of (is_broken p) (flat_map (blocked_breaks p l) (up_from 1 (longest_block p l)))) }
{
    for days in 1..=longest_block(p, l) {
        if let Some(place) = blocker_at(p, l, days) {
            return Some(FirstBreak {
                l,
                blocker: Some(Blocker { place, days }),
            });
        }
    }
    None
}

// The first break at it.
fn break_in(p: Plan, l: u32) -> Option<FirstBreak>
    requires ready { Ready p }
    requires l_bound { l ≤ 101000 }
    ensures { Points result (first_of (is_broken p) (breaks_in p l)) }
{
    if l < demand_but(p, l, 0, None) {
        return Some(FirstBreak { l, blocker: None });
    }
    blocked_in(p, l)
}

// The first break. A plan that passes has none.
pub(crate) fn sharp_break(p: Plan) -> Option<FirstBreak>
    requires { Ready p }
    ensures { Points result (sharp_break p) }
{
    if passes(p) {
        return None;
    }
    for l in 1..=bounds::multiple(p) + 999 {
        if let Some(found) = break_in(p, l) {
            return Some(found);
        }
    }
    None
}

// The first break with free moving.
pub(crate) fn free_break(p: Plan) -> Option<FirstBreak>
    requires { Ready p }
    ensures { Points result (free_break p) }
{
    sharp_break(with_free_moving(p))
}
