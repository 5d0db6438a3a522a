// Pairs at which the rule broke with sets that were tried. A set fails where the rule breaks at any one pair that its own limit allows,
// so these are asked first: ten additions each, where a quick verdict costs thousands.
ghost use Rattle.std.specs.Prelude.{◌<◌, ◌≡◌, true, false, IfSome};
ghost use Rattle.rules.specs.Verdict.{verdict_of, is_pass};
ghost use Rattle.verdict.specs.Breaks.{breaks_at};

use super::ready::ReadyPlan;
use days::Length;
use rules::{Broken, Verdict};

// Sixteen pairs, the one that served last in front. Nothing is promised of them: each is asked anew.
#[derive(Clone, Copy)]
pub(crate) struct Remembered {
    pairs: [Option<Broken>; 16],
}

impl Remembered {
    // Nothing is remembered yet.
    pub(crate) fn nothing() -> Remembered {
        Remembered { pairs: [None; 16] }
    }

    // The pair in front of those ahead of a place; what stood at the place goes.
    fn put_in_front(&mut self, place: usize, pair: Option<Broken>)
        requires { place < 16 }
    {
        self.pairs[..place + 1].rotate_right(1);
        self.pairs[0] = pair;
    }

    // The pair of a verdict in front of all; an overload breaks the rule at H, with no blocking.
    pub(crate) fn learn(&mut self, found: Verdict, h: u32) {
        let (interval, blocking) = match found {
            Verdict::Overload => (Length(h), Length(0)),
            Verdict::Fail {
                interval,
                blocking,
                ..
            } => (interval, blocking),
            Verdict::Pass { .. } => return,
        };
        self.put_in_front(15, Some(Broken { interval, blocking }));
    }
}

impl ReadyPlan {
    // Whether the rule breaks at a pair that the plan's own limit allows.
    pub(crate) fn breaks_at(self, l: u32, b: u32) -> bool
        ensures exact { result ≡ breaks_at self.plan l b }
        ensures never { result ≡ true → is_pass (verdict_of self.plan) ≡ false }
    {
        if !(1..=101000).contains(&l) {
            return false;
        }
        if self.limit(l) < b {
            return false;
        }
        l < b + self.asked_by(0, l) + self.asked_by(1, l - b)
    }

    // The place of the first remembered pair at which the rule breaks.
    fn serving(self, known: &Remembered) -> Option<usize>
        ensures { IfSome result (λ i. (i < 16) × (is_pass (verdict_of self.plan) ≡ false)) }
    {
        for (i, pair) in known.pairs.iter().enumerate() {
            if let Some(pair) = pair {
                if self.breaks_at(pair.interval.0, pair.blocking.0) {
                    return Some(i);
                }
            }
        }
        None
    }

    // Whether the plan passes: by what is remembered, and only where that says nothing by the quick verdict.
    pub(crate) fn tried(self, known: &mut Remembered) -> bool
        ensures { result ≡ is_pass (verdict_of self.plan) }
    {
        if let Some(place) = self.serving(known) {
            known.put_in_front(place, known.pairs[place]);
            return false;
        }
        let found = self.quickly_judged();
        known.learn(found, self.multiple);
        found.passes()
    }
}
