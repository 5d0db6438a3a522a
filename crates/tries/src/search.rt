// The search for a try that misses, in the order of the tries.
ghost use Rattle.std.specs.Prelude.{◌≡◌, ◌≤◌};
ghost use mathlib.Core.List.{[], ◌∷◌, flat_map};
ghost use Rattle.std.proofs.Math.Option.{some};
ghost use Rattle.base.specs.Count.{first_of};
ghost use Rattle.demand.proofs.Pairs.{pair};
ghost use Rattle.verdict.specs.inner.Asked.{Ready};
ghost use Rattle.tries.specs.Tries.{free_break, free_tries, own_break, held_tries, places, by_interval, stopped_tries};
ghost use Rattle.tries.specs.Tries.{paid_try, paid_tries, misses_on, found};
ghost use Rattle.tries.specs.inner.Openings.{try_of, Small, Finds};

use super::asking::where_broken;
use super::breaks::free_break;
use super::listing::listed;
use super::openings::{Opening, blocking, paying, stopping};
use days::Length;
use rules::{Outcome, Plan};

// A try that misses: how its list begins, and the days of its interval.
#[derive(Clone, Copy)]
pub(crate) struct Tried {
    pub(crate) opening: Opening,
    pub(crate) l: u32,
}

// Whether a run to the interval's end misses. N itself may be far longer.
#[tactic(auto, unfolding(crate::specs::Tries::misses_on, crate::specs::Tries::is_miss))]
fn misses_on(p: Plan, o: Opening, l: u32) -> bool
    requires ready { Ready p }
    requires small { Small o }
    requires l_bound { l ≤ 101000 }
    ensures { result ≡ misses_on p (try_of o l) }
{
    let end = Length(o.lead + l);
    matches!(
        run::run(p.with_run(end), listed(p, o, l)),
        Ok(Outcome::Miss { .. })
    )
}

// The try that begins so, if it misses.
fn tested(p: Plan, opening: Opening, l: u32) -> Option<Tried>
    requires ready { Ready p }
    requires small { Small opening }
    requires l_bound { l ≤ 101000 }
    ensures { Finds result (first_of (misses_on p) (try_of opening l ∷ [])) }
{
    misses_on(p, opening, l).then_some(Tried { opening, l })
}

// The lists that begin so, with the D of each string as the interval.
fn by_interval(p: Plan, o: Opening) -> Option<Tried>
    requires ready { Ready p }
    requires small { Small o }
    ensures { Finds result (first_of (misses_on p) (by_interval p (try_of o))) }
{
    for s in &p.strings[..p.n] {
        if let Some(found) = tested(p, o, s.d.0) {
            return Some(found);
        }
    }
    None
}

// The list of the theorem, where the sharp rule with free moving breaks.
fn blocked(p: Plan) -> Option<Tried>
    requires { Ready p }
    ensures { Finds result (first_of (misses_on p) (free_tries p (free_break p))) }
{
    let found = free_break(p)?;
    tested(p, blocking(p, found.l, found.blocker), found.l)
}

// Those in which a job is stopped once the takers come, at a pair at which the rule breaks.
fn held_at(p: Plan, l: u32, b: u32) -> Option<Tried>
    requires ready { Ready p }
    requires l_bound { l ≤ 101000 }
    requires b_bound { b ≤ 1000 }
    ensures { Finds result (first_of (misses_on p) (held_tries p (some (pair l b)))) }
{
    for v in 1..=p.n {
        if let Some(found) = tested(p, stopping(p, b, v), l) {
            return Some(found);
        }
    }
    None
}

// The same, at the first pair at which the plan's own rule breaks.
fn held(p: Plan) -> Option<Tried>
    requires { Ready p }
    ensures { Finds result (first_of (misses_on p) (held_tries p (own_break p))) }
{
    let broken = where_broken(p)?;
    held_at(p, broken.interval.0, broken.blocking.0)
}

// Those in which a job is stopped as the others join.
fn stopped(p: Plan) -> Option<Tried>
    requires { Ready p }
    ensures { Finds result (first_of (misses_on p) (stopped_tries p)) }
{
    for v in 1..=p.n {
        if let Some(found) = by_interval(p, stopping(p, 0, v)) {
            return Some(found);
        }
    }
    None
}

// Those in which the string at place k takes the bank and pays.
fn paid_by(p: Plan, k: usize) -> Option<Tried>
    requires ready { Ready p }
    requires le_k { (1 ≤ k) × (k ≤ p.n) }
    ensures { Finds result (first_of (misses_on p) (flat_map (λ v. by_interval p (paid_try p k v)) (places p))) }
{
    for v in 1..=p.n {
        if let Some(found) = by_interval(p, paying(p, k, v)) {
            return Some(found);
        }
    }
    None
}

// Those in which a string takes the bank and pays before the others join.
fn paid(p: Plan) -> Option<Tried>
    requires { Ready p }
    ensures { Finds result (first_of (misses_on p) (paid_tries p)) }
{
    for k in 1..=p.n {
        if let Some(found) = paid_by(p, k) {
            return Some(found);
        }
    }
    None
}

// The first try that misses.
pub(crate) fn first_that_misses(p: Plan) -> Option<Tried>
    requires { Ready p }
    ensures { Finds result (found p) }
{
    blocked(p)
        .or_else(|| held(p))
        .or_else(|| stopped(p))
        .or_else(|| paid(p))
}
