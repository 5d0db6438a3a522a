// What the strings of a plan ask of the bank within some days.
ghost use Rattle.std.specs.Prelude.{◌≡◌, ◌≤◌};
ghost use Rattle.rules.specs.Plan.{leeway};
ghost use Rattle.rules.specs.Demand.{hold_of, jobs};
ghost use Rattle.laws.proofs.Lawful.{LawfulString, PlanString};
ghost use Rattle.verdict.specs.inner.Asked.{asked_of, asked_by};

use super::ready::ReadyPlan;
use rules::{BatteryString, Plan};

// D − J: a window of fewer days holds no job of the string.
pub(crate) fn leeway_of(s: BatteryString) -> u32
    requires { LawfulString s }
    ensures { result ≡ leeway s }
{
    s.d.0 - s.j.0
}

// The jobs of a string in a window of w days.
pub(crate) fn jobs_in(s: BatteryString, w: u32) -> u32
    requires { LawfulString s }
    ensures { result ≡ jobs s w }
{
    match w.checked_sub(leeway_of(s)) {
        Some(spare) => spare / s.t.0 + 1,
        None => 0,
    }
}

// The longest that a job of the string holds the bank.
#[tactic(auto, unfolding(rules::specs::Demand::hold_of))]
pub(crate) fn hold(p: Plan, s: BatteryString) -> u32
    requires { PlanString p s }
    ensures { result ≡ hold_of p s }
{
    s.c.0 + p.moving_cost(s).0 * s.x
}

// What the string asks within w days, if its permission is x.
#[tactic(auto, unfolding(crate::specs::inner::Asked::asked_of))]
fn share(p: Plan, x: u32, w: u32, s: BatteryString) -> u32
    requires plan_string { PlanString p s }
    requires w_bound { w ≤ 101000 }
    ensures { result ≡ asked_of p x w s }
{
    if s.x == x {
        jobs_in(s, w) * hold(p, s)
    } else {
        0
    }
}

impl ReadyPlan {
    // What the strings with permission x ask within w days.
    pub(crate) fn asked_by(self, x: u32, w: u32) -> u32
        requires { w ≤ 101000 }
        ensures { result ≡ asked_by self.plan x w }
    {
        let mut asked = 0;
        for s in self.strings() {
            asked += share(self.plan, x, w, *s);
        }
        asked
    }
}
