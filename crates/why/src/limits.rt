// How long an interval can be blocked, and by whom.
ghost use Rattle.std.specs.Prelude.{◌≡◌, leb};
ghost use Rattle.base.specs.Count.{largest};
ghost use Rattle.rules.specs.Plan.{strings_of, leeway_min};
ghost use Rattle.rules.specs.Demand.{blocker_hold, block_limit};
ghost use Rattle.laws.proofs.Lawful.{PlanString};
ghost use Rattle.why.specs.Shares.{blocker_place};

use super::checked::CheckedPlan;
use rules::BatteryString;

impl CheckedPlan {
    // Whether a job of some string fits l days.
    fn someone_fits(&self, l: u32) -> bool
        ensures exact { result ≡ leb (leeway_min self.now.plan) l }
    {
        self.strings()
            .iter()
            .any(|s| s.d.0.saturating_sub(s.j.0) <= l)
    }

    // How long a job of the string can block l days: it is due after them, and has used a day.
    #[tactic(auto, unfolding(rules::specs::Demand::blocker_hold))]
    fn blocks_for(&self, l: u32, s: BatteryString) -> u32
        requires { PlanString self.now.plan s }
        ensures exact { result ≡ blocker_hold self.now.plan l s }
    {
        if l < s.d.0 {
            self.hold_of(s).saturating_sub(1)
        } else {
            0
        }
    }

    fn longest_block(&self, l: u32) -> u32
        ensures exact { result ≡ largest (blocker_hold self.now.plan l) (strings_of self.now.plan) }
    {
        let mut most = 0;
        for s in self.strings() {
            most = self.blocks_for(l, *s).max(most);
        }
        most
    }

    // The blocking limit. From the largest D on nobody blocks.
    pub(crate) fn limit_at(&self, l: u32) -> u32
        ensures exact { result ≡ block_limit self.now.plan l }
    {
        if self.someone_fits(l) {
            l.min(self.longest_block(l))
        } else {
            0
        }
    }

    // The place of the first string that blocks for longest. Some string does.
    pub(crate) fn blocker_place(&self, l: u32) -> usize
        ensures exact { result ≡ blocker_place self.now.plan l }
    {
        let most = self.longest_block(l);
        for (i, s) in self.strings().iter().enumerate() {
            if self.blocks_for(l, *s) == most {
                return i + 1;
            }
        }
        self.plan.n + 1
    }
}
