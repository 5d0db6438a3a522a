// What strings ask of an interval with a blocking.
ghost use Rattle.std.specs.Prelude.{◌≡◌};
ghost use Rattle.rules.specs.Demand.{hold_of, jobs, need, demand};
ghost use Rattle.laws.proofs.Lawful.{LawfulString, PlanString};
ghost use Rattle.why.specs.Shares.{counted_days};

use super::checked::CheckedPlan;
use rules::BatteryString;

// The jobs of a string in a window of w days.
pub(crate) fn jobs_within(s: BatteryString, w: u32) -> u32
    requires { LawfulString s }
    ensures exact { result ≡ jobs s w }
{
    match w.checked_sub(s.d.0 - s.j.0) {
        Some(rest) => rest / s.t.0 + 1,
        None => 0,
    }
}

// The days in which the jobs of the string are counted.
#[tactic(auto, unfolding(crate::specs::Shares::counted_days))]
pub(crate) fn days_for(l: u32, b: u32, s: BatteryString) -> u32
    ensures exact { result ≡ counted_days l b s }
{
    if s.x == 1 { l.saturating_sub(b) } else { l }
}

impl CheckedPlan {
    // The longest that a job of the string holds the bank.
    #[tactic(auto, unfolding(rules::specs::Demand::hold_of))]
    pub(crate) fn hold_of(&self, s: BatteryString) -> u32
        requires { PlanString self.now.plan s }
        ensures exact { result ≡ hold_of self.now.plan s }
    {
        s.c.0 + self.plan.moving_cost(s).0 * s.x
    }

    // What the string asks.
    fn share(&self, l: u32, b: u32, s: BatteryString) -> u64
        requires { PlanString self.now.plan s }
        ensures exact { result ≡ need self.now.plan l b s }
    {
        u64::from(jobs_within(s, days_for(l, b, s))) * u64::from(self.hold_of(s))
    }

    // What all ask, and the blocking.
    pub(crate) fn demand_at(&self, l: u32, b: u32) -> u64
        ensures exact { result ≡ demand self.now.plan l b }
    {
        let mut sum = u64::from(b);
        for s in self.strings() {
            sum += self.share(l, b, *s);
        }
        sum
    }
}
