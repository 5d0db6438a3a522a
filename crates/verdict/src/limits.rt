// The smallest D − J and the largest D, the blocking limit, and the load.
ghost use Rattle.std.specs.Prelude.{◌≡◌, ◌≤◌, ◌*◌, ◌/◌};
ghost use Rattle.base.specs.Count.{largest};
ghost use Rattle.rules.specs.Plan.{strings_of, leeway_min, d_max};
ghost use Rattle.rules.specs.Demand.{hold_of, blocker_hold, block_limit, load, overloaded};
ghost use Rattle.laws.proofs.Lawful.{PlanString};
ghost use Rattle.verdict.specs.inner.Asked.{Ready};

use super::asking::{hold, leeway_of};
use super::ready::ReadyPlan;
use rules::{BatteryString, Plan};

pub(crate) fn smallest_leeway(p: Plan) -> u32
    requires { Ready p }
    ensures { result ≡ leeway_min p }
{
    let mut least = leeway_of(p.strings[0]);
    for s in &p.strings[..p.n] {
        least = least.min(leeway_of(*s));
    }
    least
}

pub(crate) fn largest_d(p: Plan) -> u32
    requires { Ready p }
    ensures { result ≡ d_max p }
{
    let mut most: u32 = 0;
    for s in &p.strings[..p.n] {
        most = most.max(s.d.0);
    }
    most
}

// How long a job of the string may hold the bank against an interval that ends before it is due. It started a day earlier at the latest.
#[tactic(auto, unfolding(rules::specs::Demand::blocker_hold))]
fn blocker(p: Plan, l: u32, s: BatteryString) -> u32
    requires { PlanString p s }
    ensures { result ≡ blocker_hold p l s }
{
    if l < s.d.0 {
        return hold(p, s) - 1;
    }
    0
}

// What the string's jobs ask of a period of h days.
fn period_share(p: Plan, h: u32, s: BatteryString) -> u32
    requires plan_string { PlanString p s }
    requires h_bound { h ≤ 100000 }
    ensures { result ≡ hold_of p s * (h / s.t.0) }
{
    hold(p, s) * (h / s.t.0)
}

impl ReadyPlan {
    fn longest_blocker(self, l: u32) -> u32
        ensures { result ≡ largest (blocker_hold self.plan l) (strings_of self.plan) }
    {
        let mut most: u32 = 0;
        for s in self.strings() {
            most = most.max(blocker(self.plan, l, *s));
        }
        most
    }

    // The blocking limit at interval l. The strings are looked at only between the smallest D − J and the largest D.
    #[tactic(auto, unfolding(rules::specs::Demand::block_limit))]
    pub(crate) fn limit(self, l: u32) -> u32
        ensures { result ≡ block_limit self.plan l }
    {
        if (self.first..self.last).contains(&l) {
            l.min(self.longest_blocker(l))
        } else {
            0
        }
    }

    // The load over H.
    pub(crate) fn load(self) -> u32
        ensures { result ≡ load self.plan }
    {
        let mut load = 0;
        for s in self.strings() {
            load += period_share(self.plan, self.multiple, *s);
        }
        load
    }

    // Whether the load is over H.
    #[tactic(auto, unfolding(rules::specs::Demand::overloaded))]
    pub(crate) fn overloaded(self) -> bool
        ensures { result ≡ overloaded self.plan }
    {
        self.multiple < self.load()
    }
}
