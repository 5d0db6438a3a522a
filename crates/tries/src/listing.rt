// The list of a try: its first releases, then the others day by day.
ghost use Rattle.std.specs.Prelude.{◌≡◌, ◌≤◌};
ghost use Rattle.laws.proofs.Lawful.{LawfulString};
ghost use Rattle.verdict.specs.inner.Asked.{Ready};
ghost use Rattle.exact.specs.Missing.{delay_of, due_coming, comes_in, comes_first};
ghost use Rattle.tries.specs.Tries.{list_of, packed};
ghost use Rattle.tries.specs.inner.Openings.{head_of, try_of, comes_behind, Small};

use super::openings::Opening;
use days::Day;
use rules::{BatteryString, NO_RELEASE, Plan, Release, Releases};

// The days of the interval before a job of the string comes.
#[tactic(auto, unfolding(exact::specs::Missing::delay_of))]
pub(crate) fn delay_of(delay: u32, s: BatteryString) -> u32
    ensures { result ≡ delay_of delay s }
{
    if s.x == 1 { delay } else { 0 }
}

// The due day of the job that comes on day t, the first coming on the day `first`.
#[tactic(auto, unfolding(exact::specs::Missing::due_coming))]
fn due_coming(first: u32, s: BatteryString, t: u32) -> u32
    ensures { result ≡ due_coming first s t }
{
    if t == first {
        first.saturating_sub(s.j.0)
    } else {
        t
    }
}

// Whether a job of the string is released on day t.
#[tactic(auto, unfolding(exact::specs::Missing::comes_in, exact::specs::Missing::due_coming))]
fn comes_in(first: u32, end: u32, s: BatteryString, t: u32) -> bool
    requires lawful_string { LawfulString s }
    requires first_bound { (first ≤ 104000) × (t ≤ 104000) }
    ensures { result ≡ comes_in first end s t }
{
    if t < first {
        return false;
    }
    let due = due_coming(first, s, t);
    (due + s.j.0 - first) % s.t.0 == 0 && due + s.d.0 <= end
}

// Whether a release of the first ones is of the place.
#[tactic(auto, unfolding(exact::specs::Missing::comes_first, base::specs::Count::any))]
fn comes_first(o: Opening, place: usize) -> bool
    ensures { result ≡ comes_first (head_of o) place }
{
    o.first.is_some_and(|r| r.place == place) || o.taker.is_some_and(|r| r.place == place)
}

// Whether a job of the string at the place is released on day t, behind the first releases.
#[tactic(auto, using(crate::proofs::Holding::delay_small))]
fn comes_behind(o: Opening, l: u32, s: BatteryString, place: usize, t: u32) -> bool
    requires lawful_string { LawfulString s }
    requires small { Small o }
    requires l_bound { (l ≤ 101000) × (t ≤ 104000) }
    ensures { result ≡ comes_behind o l s place t }
{
    !comes_first(o, place) && comes_in(o.lead + delay_of(o.delay, s), o.lead + l, s, t)
}

// The first releases, and room behind them.
fn begun(o: Opening) -> Releases
    ensures { result ≡ packed (head_of o) }
{
    let mut list = [NO_RELEASE; 1000];
    let mut count = 0;
    if let Some(first) = o.first {
        list[count] = first;
        count += 1;
    }
    if let Some(taker) = o.taker {
        list[count] = taker;
        count += 1;
    }
    Releases { count, list }
}

// The list with an interval of l days. The first release beyond the thousandth ends it: no longer list is lawful.
pub(crate) fn listed(p: Plan, o: Opening, l: u32) -> Releases
    requires ready { Ready p }
    requires small { Small o }
    requires l_bound { l ≤ 101000 }
    ensures { result ≡ packed (list_of p (try_of o l)) }
{
    let Releases {
        mut count,
        mut list,
    } = begun(o);
    for t in o.lead..o.lead + l {
        for (i, s) in p.strings[..p.n].iter().enumerate() {
            if !comes_behind(o, l, *s, i + 1, t) {
                continue;
            }
            if count == 1000 {
                return Releases { count: 1001, list };
            }
            list[count] = Release {
                day: Day(t),
                place: i + 1,
                need: s.c,
                due: Day(due_coming(o.lead + delay_of(o.delay, *s), *s, t)),
            };
            count += 1;
        }
    }
    Releases { count, list }
}
