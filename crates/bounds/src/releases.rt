// The first release of a list that may not stand where it stands.
ghost use Rattle.std.specs.Prelude.{◌≡◌, ◌+◌, ◌≤◌, unwrap_or, IfSome};
ghost use Rattle.faults.specs.Checks.{in_bounds};
ghost use Rattle.rules.specs.Release.{releases_of, first_unlawful};
ghost use Rattle.bounds.specs.inner.Seen.{too_soon, admits, remembered_of};

use days::{Day, Length};
use rules::{Plan, Release, Releases};

// Whether a due day comes fewer than t days after the last of its place, where there was one.
#[tactic(auto, unfolding(crate::specs::inner::Seen::too_soon, days::specs::Days::gap_of))]
fn too_soon(last: Option<Day>, due: Day, t: Length) -> bool
    ensures exact { result ≡ too_soon last due t }
{
    match last {
        None => false,
        Some(earlier) => match due.since(earlier) {
            Some(length) => length < t,
            None => true,
        },
    }
}

// Whether a release on `day` comes 0 to `late` days after its due day.
#[tactic(auto, unfolding(days::specs::Days::gap_of))]
fn in_time(day: Day, due: Day, late: Length) -> bool
    ensures exact { result ≡ in_bounds due.0 day.0 (due.0 + late.0) }
{
    match day.since(due) {
        Some(length) => length <= late,
        None => false,
    }
}

// Whether r may follow releases of which the latest was on the day `latest`; `last` is the last due day of r's place.
#[tactic(auto, unfolding(crate::specs::inner::Seen::admits))]
fn admitted(p: Plan, latest: Day, last: Option<Day>, r: Release) -> bool
    ensures exact { result ≡ admits p latest last r }
{
    if !(1..=p.n.min(10)).contains(&r.place) {
        return false;
    }
    let s = p.strings[r.place - 1];
    (1..=s.c.0).contains(&r.need.0)
        && r.day.0 < p.run.0
        && latest <= r.day
        && !too_soon(last, r.due, s.t)
        && in_time(r.day, r.due, s.j)
}

// What is remembered of the last due day of a place; nothing of a place that no plan has.
#[tactic(auto, unfolding(crate::specs::inner::Seen::remembered_of))]
fn remembered(last: [Option<Day>; 10], place: usize) -> Option<Day>
    ensures exact { result ≡ remembered_of last place }
{
    if !(1..=10).contains(&place) {
        return None;
    }
    last[place - 1]
}

// The place in the list, from 1, of the first unlawful release, where there is one.
pub fn first_unlawful(p: Plan, rs: Releases) -> Option<usize>
    ensures exact { unwrap_or result 0 ≡ first_unlawful p (releases_of rs) }
    ensures place { IfSome result (λ k. 1 ≤ k) }
{
    let mut last = [None; 10];
    let mut latest = Day(0);
    for (i, r) in rs.list[..rs.count.min(1000)].iter().enumerate() {
        if !admitted(p, latest, remembered(last, r.place), *r) {
            return Some(i + 1);
        }
        last[r.place - 1] = Some(r.due);
        latest = r.day;
    }
    None
}
