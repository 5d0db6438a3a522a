// The verdict on a lawful plan: overload first, then the pairs (l, b) in order of l, then b.
ghost use Rattle.std.specs.Prelude.{◌≡◌, replicate};
ghost use Rattle.rules.specs.Verdict.{all_pairs, verdict_of};
ghost use Rattle.demand.proofs.Pairs.{scan_from};

use super::ready::ReadyPlan;
use super::steps::Parts;
use days::Length;
use rules::Verdict;

// What the takers ask within each of 1,024 numbers of days, before any is known.
pub(crate) fn none_known() -> [u32; 1024]
    ensures { result ≡ replicate 1024 0 }
{
    [0; 1024]
}

impl Parts {
    // Compares pair after pair up to the first broken one. What the strings ask is carried from one interval to the next: a job count that
    // steps adds its job. What the takers ask within w days is looked up: it was known once, at interval w. A blocking is below 1,024, so
    // that many of the latest intervals are kept, each at its remainder.
    fn scan(&self) -> Verdict
        ensures { result ≡ scan_from self.now.ready.plan 0 (all_pairs self.now.ready.plan) }
    {
        let end = self.ready.last + self.ready.multiple;
        let mut next = self.ready.steps_after(0);
        let mut takers = none_known();
        let mut keepers = 0;
        let mut asked = 0;
        let mut pairs = 0;
        for l in 1..end {
            let top = self.ready.limit(l);
            let step = self.advance(l, end, &mut next);
            keepers += step.keepers;
            asked += step.takers;
            takers[(l % 1024) as usize] = asked;
            for b in 0..top + 1 {
                let back = (l - b) % 1024;
                let demand = b + keepers + takers[back as usize];
                pairs += 1;
                if l < demand {
                    return Verdict::Fail {
                        interval: Length(l),
                        blocking: Length(b),
                        demand: Length(demand),
                        pairs,
                    };
                }
            }
        }
        Verdict::Pass { pairs }
    }
}

impl ReadyPlan {
    // The verdict.
    pub(crate) fn judged(self) -> Verdict
        ensures { result ≡ verdict_of self.plan }
    {
        if self.overloaded() {
            Verdict::Overload
        } else {
            self.parts().scan()
        }
    }
}
