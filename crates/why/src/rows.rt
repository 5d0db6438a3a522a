// An interval with all its blockings, and the tightest pair of all.
ghost use Rattle.std.specs.Prelude.{◌≡◌};
ghost use Rattle.std.specs.Bool.{then_some};
ghost use Rattle.rules.specs.Verdict.{all_pairs};
ghost use Rattle.lines.specs.Pages.{page_of};
ghost use Rattle.demand.proofs.Pairs.{pair};
ghost use Rattle.why.specs.Named.{spare};
ghost use Rattle.why.specs.Stairs.{top_demand, grows_in, broken_in, stair_text};
ghost use Rattle.why.specs.inner.Best.{best_from};

use super::checked::CheckedPlan;
use days::Length;
use lines::{Page, blank, stair_line};

// A pair, and the days that its demand leaves.
#[derive(Clone, Copy)]
pub(crate) struct Spot {
    pub(crate) l: u32,
    pub(crate) b: u32,
    pub(crate) left: u64,
}

impl CheckedPlan {
    // The largest demand over the blockings of an interval.
    fn top_demand(&self, l: u32) -> u64
        ensures exact { result ≡ top_demand self.now.plan l }
    {
        (0..self.limit_at(l) + 1)
            .map(|b| self.demand_at(l, b))
            .max()
            .unwrap_or(0)
    }

    // The largest demand of an interval where some demand is larger than a day before; one walk finds both.
    fn top_grown(&self, l: u32) -> Option<u64>
        ensures exact { result ≡ then_some (grows_in self.now.plan l) (top_demand self.now.plan l) }
    {
        let before = l.saturating_sub(1);
        let mut top = 0;
        let mut grows = false;
        for b in 0..self.limit_at(l) + 1 {
            let demand = self.demand_at(l, b);
            // asked of each blocking: a walk with no branch is quicker
            grows |= self.demand_at(before, b) < demand;
            top = demand.max(top);
        }
        grows.then_some(top)
    }

    // The line of an interval at which some demand grows; none at any other.
    #[tactic(auto, unfolding(crate::specs::Stairs::stair_text))]
    pub(crate) fn stair(&self, l: u32) -> Page
        ensures exact { result ≡ page_of (stair_text self.now.plan l) }
    {
        if !(1..=self.last_interval()).contains(&l) {
            return blank();
        }
        match self.top_grown(l) {
            Some(top) => stair_line(Length(l), top),
            None => blank(),
        }
    }

    // Whether the rule breaks at an interval.
    #[tactic(auto, unfolding(crate::specs::Stairs::broken_in))]
    pub(crate) fn broken_in(&self, l: u32) -> bool
        ensures exact { result ≡ broken_in self.now.plan l }
    {
        u64::from(l) < self.top_demand(l)
    }

    #[tactic(auto, unfolding(crate::specs::Named::spare))]
    fn spot(&self, l: u32, b: u32) -> Spot
        ensures exact { result ≡ record { l = l; b = b; left = spare self.now.plan (pair l b) } }
    {
        Spot {
            l,
            b,
            left: u64::from(l).saturating_sub(self.demand_at(l, b)),
        }
    }

    // The first of the pairs with the least to spare.
    pub(crate) fn tightest_pair(&self) -> Spot
        ensures exact { pair result.l result.b ≡ best_from self.now.plan (pair 1 0) (all_pairs self.now.plan) }
    {
        let mut best = self.spot(1, 0);
        for l in 1..self.last_interval() + 1 {
            for b in 0..self.limit_at(l) + 1 {
                let next = self.spot(l, b);
                if next.left < best.left {
                    best = next;
                }
            }
        }
        best
    }
}
