// The search: sets with fewer ones first, among equals the smaller number first; the first that passes is the answer.
ghost use Rattle.std.specs.Prelude.{◌≡◌, ◌&&◌, eqb};
ghost use Rattle.std.specs.Int.Count.{ones as ones_of};
ghost use Rattle.rules.specs.Search.{with_set, set_passes, search_of};
ghost use Rattle.verdict.specs.inner.Unblocked.{names_unblocked};

use super::ready::ReadyPlan;
use super::remembering::Remembered;
use rules::{Assign, BatteryString, Plan, Verdict};

// The string with permission x.
fn permitted(s: BatteryString, x: u32) -> BatteryString
    ensures { result ≡ record { t = s.t; c = s.c; d = s.d; x = x; a = s.a; j = s.j } }
{
    BatteryString { x, ..s }
}

// The plan with the permissions of a set, whatever the plan and the number.
pub fn with_set(p: Plan, set: u32) -> Plan
    ensures exact { result ≡ with_set p set }
{
    let mut strings = p.strings;
    let mut rest = set;
    for s in &mut strings {
        *s = permitted(*s, rest % 2);
        rest /= 2;
    }
    Plan { strings, ..p }
}

// Whether a verdict names a pair with no blocking; an overload breaks the rule at H with none.
fn unblocked(found: Verdict) -> bool
    ensures { result ≡ names_unblocked found }
{
    match found {
        Verdict::Overload => true,
        Verdict::Fail { blocking, .. } => blocking.0 == 0,
        Verdict::Pass { .. } => false,
    }
}

impl ReadyPlan {
    // Whether the set has so many ones and passes; what is learnt of it is remembered.
    #[tactic(auto, unfolding(rules::specs::Search::set_passes))]
    fn candidate(self, ones: u32, set: u32, known: &mut Remembered) -> bool
        ensures { result ≡ (eqb (ones_of set) ones && set_passes self.plan set) }
    {
        set.count_ones() == ones && self.with_set(set).tried(known)
    }

    // The first set that passes, with what is remembered so far.
    fn first_of_all(self, mut known: Remembered) -> Assign
        ensures { result ≡ search_of self.plan }
    {
        let n = self.plan.n;
        let end = 1u32 << n;
        for ones in 0..n as u32 + 1 {
            for set in 0..end {
                if self.candidate(ones, set, &mut known) {
                    return Some(set);
                }
            }
        }
        None
    }

    // The first set that passes. Where the empty set breaks the rule with no blocking, the work alone is too much, and no set passes.
    pub(crate) fn first_set(self) -> Assign
        ensures { result ≡ search_of self.plan }
    {
        let alone = self.with_set(0).quickly_judged();
        if alone.passes() {
            return Some(0);
        }
        if unblocked(alone) {
            return None;
        }
        let mut known = Remembered::nothing();
        known.learn(alone, self.multiple);
        self.first_of_all(known)
    }
}
