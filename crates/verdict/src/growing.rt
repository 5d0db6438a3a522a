// The quick verdict on a lawful plan: overload first, then the pairs at which a job count grows, in order of l, then b.
ghost use Rattle.std.specs.Prelude.{◌+◌, ◌-◌, ◌*◌, ◌≤◌, ◌<◌, ◌≡◌, cond, List, ◌++◌, ltb, get_or};
ghost use Rattle.base.specs.Count.{keep};
ghost use Rattle.rules.specs.Plan.{multiple_of, d_max};
ghost use Rattle.rules.specs.Demand.{demand};
ghost use Rattle.rules.specs.Verdict.{Pair, all_pairs, first_broken, broken_at};
ghost use Rattle.demand.specs.Quick.{grows, quick_pairs, quick_of};
ghost use Rattle.demand.proofs.Pairs.{row_from, rows, scan_from};
ghost use Rattle.verdict.specs.inner.Asked.{asked_by};
ghost use Rattle.verdict.specs.inner.Steps.{RowKnown, onward, pairs_of};

use super::pairs::none_known;
use super::ready::ReadyPlan;
use super::steps::Parts;
use days::Length;
use rules::{Broken, Verdict};

// The mark of a day: one more than the day if the takers ask for more on it, else the mark before.
fn marked(mark: u32, takers: u32, l: u32) -> u32
    requires { l ≤ 1000 }
    ensures { result ≡ cond (ltb 0 takers) (l + 1) mark }
{
    if 0 < takers { l + 1 } else { mark }
}

// The first blocking of interval l to look at, of those that leave the takers less than `left` days: where the keepers ask for more than a
// day before, the very next, else the next that leaves the takers a marked day.
fn next_blocking(l: u32, more: u32, marks: &[u32; 1024], left: u32) -> u32
    requires left_bound { left ≤ l + 1 }
    requires l_bound { l ≤ 1000 }
    requires left_bound_2 { get_or marks.now left 0 ≤ left }
    ensures { result ≡ l + 1 - cond (ltb 0 more) left (get_or marks.now left 0) }
{
    if 0 < more {
        return l + 1 - left;
    }
    let at = left as usize;
    l + 1 - marks[at]
}

impl ReadyPlan {
    // The demand at (l, b), given what the keepers ask within l days and the takers within each number of days.
    fn demand_at(self, l: u32, b: u32, keepers: u32, takers: &[u32; 1024]) -> u32
        requires b_le_l { b ≤ l }
        requires l_bound { l ≤ 1000 }
        requires keepers_value { keepers ≡ asked_by self.plan 0 l }
        requires b_value { get_or takers.now (l - b) 0 ≡ asked_by self.plan 1 (l - b) }
        ensures { result ≡ demand self.plan l b }
    {
        b + keepers + takers[(l - b) as usize]
    }

    // The pairs of interval l, `before` pairs having been compared: the first broken one, or a pass.
    fn row(
        self,
        l: u32,
        keepers: u32,
        more: u32,
        takers: &[u32; 1024],
        marks: &[u32; 1024],
        before: u32,
    ) -> Verdict
        requires row_known { RowKnown self.plan l keepers more takers.now marks.now }
        requires before_bound { before ≤ 1001 * l }
        ensures onward { (qs : List Pair)
            → onward self.plan result qs ≡ scan_from self.plan before (keep (grows self.plan) (row_from self.plan l 0) ++ qs) }
        ensures few { pairs_of result ≤ 1001 * (l + 1) }
    {
        let top = self.limit(l);
        let mut pairs = before;
        let mut b = next_blocking(l, more, marks, l + 1);
        while b <= top {
            let demand = self.demand_at(l, b, keepers, takers);
            pairs += 1;
            if l < demand {
                return Verdict::Fail {
                    interval: Length(l),
                    blocking: Length(b),
                    demand: Length(demand),
                    pairs,
                };
            }
            b = next_blocking(l, more, marks, l - b);
        }
        Verdict::Pass { pairs }
    }
}

impl Parts {
    // The intervals from the smallest D − J, before which no job fits, up to the largest D, day by day: a blocking moves a taker's step to
    // a later interval.
    fn early(&self) -> Verdict
        ensures onward { onward self.now.ready.plan result
            (keep (grows self.now.ready.plan) (rows self.now.ready.plan (d_max self.now.ready.plan) (multiple_of self.now.ready.plan)))
            ≡ scan_from self.now.ready.plan 0 (quick_pairs self.now.ready.plan) }
        ensures few { pairs_of result ≤ 1001 * d_max self.now.ready.plan }
    {
        let mut next = self.ready.steps_after(self.ready.first - 1);
        let mut takers = none_known();
        let mut marks = none_known();
        let mut keepers = 0;
        let mut asked = 0;
        let mut mark = 0;
        let mut pairs = 0;
        for l in self.ready.first..self.ready.last {
            let step = self.advance(l, self.ready.last, &mut next);
            keepers += step.keepers;
            asked += step.takers;
            mark = marked(mark, step.takers, l);
            takers[l as usize] = asked;
            marks[l as usize + 1] = mark;
            let found = self
                .ready
                .row(l, keepers, step.keepers, &takers, &marks, pairs);
            let Verdict::Pass { pairs: compared } = found else {
                return found;
            };
            pairs = compared;
        }
        Verdict::Pass { pairs }
    }

    // The intervals from the largest D on, which have no blocking: from step to step.
    fn late(&self, before: u32) -> Verdict
        requires { before ≤ 1001 * d_max self.now.ready.plan }
        ensures { result ≡ scan_from self.now.ready.plan before
            (keep (grows self.now.ready.plan) (rows self.now.ready.plan (d_max self.now.ready.plan) (multiple_of self.now.ready.plan))) }
    {
        let end = self.ready.last + self.ready.multiple;
        let mut next = self.ready.steps_after(self.ready.last - 1);
        let mut demand = self.ready.asked_by(0, self.ready.last - 1)
            + self.ready.asked_by(1, self.ready.last - 1);
        let mut pairs = before;
        let mut l = self.ready.first_step(self.ready.last - 1, end);
        while l < end {
            let step = self.advance(l, end, &mut next);
            demand += step.keepers + step.takers;
            pairs += 1;
            if l < demand {
                return Verdict::Fail {
                    interval: Length(l),
                    blocking: Length(0),
                    demand: Length(demand),
                    pairs,
                };
            }
            l = step.soonest;
        }
        Verdict::Pass { pairs }
    }
}

impl ReadyPlan {
    // The pairs at which a count grows, below the largest D and from it on: the first broken one, or a pass.
    fn first_broken(self) -> Verdict
        ensures { result ≡ scan_from self.plan 0 (quick_pairs self.plan) }
    {
        let parts = self.parts();
        let found = parts.early();
        let Verdict::Pass { pairs } = found else {
            return found;
        };
        parts.late(pairs)
    }

    // The quick verdict.
    pub(crate) fn quickly_judged(self) -> Verdict
        ensures { result ≡ quick_of self.plan }
    {
        if self.overloaded() {
            Verdict::Overload
        } else {
            self.first_broken()
        }
    }

    // The first broken pair of all, if there is one: it is one at which a count grows.
    pub(crate) fn broken_at(self) -> Option<Broken>
        ensures { result ≡ broken_at (first_broken self.plan (all_pairs self.plan)) }
    {
        match self.first_broken() {
            Verdict::Fail {
                interval,
                blocking,
                ..
            } => Some(Broken { interval, blocking }),
            _ => None,
        }
    }
}
