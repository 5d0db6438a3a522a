// How the lists begin: a job that blocks; a job on the bank; a job on the bank, and one that takes it.
ghost use Rattle.std.specs.Prelude.{◌≡◌, ◌+◌, ◌≤◌};
ghost use Rattle.verdict.specs.inner.Asked.{Ready};
ghost use Rattle.exact.specs.Missing.{most_late};
ghost use Rattle.tries.specs.Tries.{break_at, full_release, block_try, stopped_try, paid_try};
ghost use Rattle.tries.specs.inner.Openings.{try_of, Small, TriesBlocks, place_of, tries_days_of};

use super::breaks::{Blocker, longest_hold};
use days::{Day, Length};
use rules::{Plan, Release};

// The first releases, one at most that is on the bank or blocks, and one that takes it; the day on which the interval begins; and the days
// of it before takers come.
#[derive(Clone, Copy)]
pub(crate) struct Opening {
    pub(crate) first: Option<Release>,
    pub(crate) taker: Option<Release>,
    pub(crate) lead: u32,
    pub(crate) delay: u32,
}

// A release on day t, due on that day, of the string at a place, with as much work as is lawful.
fn full_release(p: Plan, t: u32, place: usize) -> Release
    requires ready { Ready p }
    requires le_place { (1 ≤ place) × (place ≤ p.n) }
    ensures { result ≡ full_release p t place }
{
    Release {
        day: Day(t),
        place,
        need: p.strings[place - 1].c,
        due: Day(t),
    }
}

// The largest J of a string.
#[tactic(auto, unfolding(exact::specs::Missing::most_late))]
fn most_late(p: Plan) -> u32
    requires { Ready p }
    ensures { result ≡ most_late p }
{
    let mut most = 0;
    for s in &p.strings[..p.n] {
        most = s.j.0.max(most);
    }
    most
}

// Where somebody blocks, a job of that string that does, released alone; else nothing comes ahead of the interval.
#[tactic(auto, using(crate::proofs::Holding::begins), unfolding(exact::specs::Missing::blocker_release))]
pub(crate) fn blocking(p: Plan, l: u32, blocker: Option<Blocker>) -> Opening
    requires ready { Ready p }
    requires blocks { TriesBlocks blocker }
    requires few { tries_days_of blocker ≤ 1000 }
    ensures opens { try_of result l ≡ block_try p (break_at l (tries_days_of blocker) (place_of blocker)) }
    ensures small { Small result }
{
    let most = most_late(p);
    match blocker {
        None => Opening {
            first: None,
            taker: None,
            lead: most,
            delay: 0,
        },
        Some(Blocker { place, days }) => {
            let day = Day(most);
            Opening {
                first: Some(Release {
                    day,
                    place,
                    need: Length(days + 1),
                    due: day,
                }),
                taker: None,
                lead: most + 1,
                delay: days,
            }
        }
    }
}

// The string at place v is on the bank from the first day on; takers come b days later than the others.
#[tactic(auto, using(crate::proofs::Holding::begins))]
pub(crate) fn stopping(p: Plan, b: u32, v: usize) -> Opening
    requires ready { Ready p }
    requires b_bound { b ≤ 1000 }
    requires le_v { (1 ≤ v) × (v ≤ p.n) }
    ensures opens { try_of result ≡ stopped_try p b v }
    ensures small { Small result }
{
    let most = most_late(p);
    Opening {
        first: Some(full_release(p, most, v)),
        taker: None,
        lead: most + 1,
        delay: b,
    }
}

// A day later the string at place k takes the bank from it and blocks.
#[tactic(auto, using(crate::proofs::Holding::begins))]
pub(crate) fn paying(p: Plan, k: usize, v: usize) -> Opening
    requires ready { Ready p }
    requires le_k { (1 ≤ k) × (k ≤ p.n) }
    requires le_v { (1 ≤ v) × (v ≤ p.n) }
    ensures opens { try_of result ≡ paid_try p k v }
    ensures small { Small result }
{
    let most = most_late(p);
    Opening {
        first: Some(full_release(p, most, v)),
        taker: Some(full_release(p, most + 1, k)),
        lead: most + 2,
        delay: longest_hold(p, p.strings[k - 1]) - 1,
    }
}
