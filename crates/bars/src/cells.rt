// The bars of a string, a cell for each column, from the stints of a run in a list of numbers and from its releases.
ghost use Rattle.std.specs.Prelude.{◌≡◌, cond, ◌≤◌, take, get_or};
ghost use Rattle.base.specs.Count.{count_of};
ghost use Rattle.rules.specs.declared.Use.TheVariants.{Idle};
ghost use Rattle.rules.specs.Release.{releases_of};
ghost use Rattle.sound.specs.Served.{works_for};
ghost use Rattle.bars.specs.Bars.{drawn_on, left_over, used_bar, bar_in};
ghost use Rattle.bars.specs.inner.Drawing.{uses_told, UpToSeventy, left_now, cells_of};

use super::columns::Drawn;
use rules::{Plan, Release, Releases, Use};
use run::stint_at;

// What the bank did on day t, by the stints in the list; nothing where they do not reach it.
fn use_on(list: &[u32], stints: usize, t: u32) -> Use
    ensures exact { result ≡ get_or (uses_told list.now stints) t Idle }
{
    let mut left = t;
    for i in 0..stints {
        let stint = stint_at(list, i);
        if left < stint.length.0 {
            return stint.used;
        }
        left -= stint.length.0;
    }
    Use::Idle
}

// The days of a stretch that are work for the k-th release.
fn share(used: Use, k: usize, days: u32) -> u32
    ensures exact { result ≡ cond (works_for k used) days 0 }
{
    match used {
        Use::Idle => 0,
        Use::Work { place: _, serves } => {
            if serves == k {
                return days;
            }
            0
        }
        Use::Move {
            place: _,
            serves: _,
        } => 0,
    }
}

// The days of work for the k-th release before day t.
fn worked_before(list: &[u32], stints: usize, k: usize, t: u32) -> u32
    ensures exact { result ≡ count_of (works_for k) (take t (uses_told list.now stints)) }
{
    let mut left = t;
    let mut work: u32 = 0;
    for i in 0..stints {
        let stint = stint_at(list, i);
        let days = left.min(stint.length.0);
        work += share(stint.used, k, days);
        left -= days;
    }
    work
}

// Whether a release is one of the string at a place, and is drawn on day t: while the run goes one that has come, else one that is due.
fn is_drawn(p: Plan, r: Release, place: usize, going: bool, t: u32) -> bool
    requires le_place { 1 ≤ place }
    requires place_le_n { place ≤ p.n }
    requires n_bound { p.n ≤ 10 }
    ensures exact { result ≡ drawn_on p place going t r }
{
    if r.place != place {
        return false;
    }
    if going {
        return r.day.0 <= t;
    }
    let strings = p.strings;
    let s = strings[place - 1];
    (r.due.0 as u64) + (s.d.0 as u64) == t as u64
}

// Whether the k-th release is such a one and the bank has work to come for it.
fn is_left(
    p: Plan,
    r: Release,
    list: &[u32],
    stints: usize,
    k: usize,
    place: usize,
    going: bool,
    t: u32,
) -> bool
    requires le_place { 1 ≤ place }
    requires place_le_n { place ≤ p.n }
    requires n_bound { p.n ≤ 10 }
    ensures exact { result ≡ left_now p place going t r (uses_told list.now stints) k }
{
    if is_drawn(p, r, place, going, t) {
        return worked_before(list, stints, k, t) < r.need.0;
    }
    false
}

// Whether the bank has work to come for a release of the string at a place that is drawn on day t.
fn left_over(
    p: Plan,
    rs: Releases,
    list: &[u32],
    stints: usize,
    days: u32,
    place: usize,
    t: u32,
) -> bool
    requires le_place { 1 ≤ place }
    requires place_le_n { place ≤ p.n }
    requires n_bound { p.n ≤ 10 }
    requires count_bound { rs.count ≤ 1000 }
    ensures exact { result ≡ left_over p (releases_of rs) (uses_told list.now stints) days place t }
{
    let going = t < days;
    let count = rs.count;
    let releases = rs.list;
    let mut passed: usize = 0;
    while passed < count {
        let r = releases[passed];
        if is_left(p, r, list, stints, passed + 1, place, going, t) {
            return true;
        }
        passed += 1;
    }
    false
}

// A day on which the bank does nothing for the string.
fn left_bar(left: bool, going: bool) -> u8
    ensures exact { result ≡ cond left (cond going 0x2e 0x21) 0x20 }
{
    if left {
        if going {
            return b'.';
        }
        return b'!';
    }
    b' '
}

// A day on which it does `used`, where another bar stands if that is not for the string.
fn used_bar(place: usize, used: Use, other: u8) -> u8
    ensures exact { result ≡ used_bar place used other }
{
    match used {
        Use::Idle => other,
        Use::Work {
            place: for_place,
            serves: _,
        } => {
            if for_place == place {
                return b'#';
            }
            other
        }
        Use::Move {
            place: for_place,
            serves: _,
        } => {
            if for_place == place {
                return b'm';
            }
            other
        }
    }
}

// The bar of the string at a place on day t of a run that goes so many days.
fn bar_on(p: Plan, rs: Releases, list: &[u32], stints: usize, days: u32, place: usize, t: u32) -> u8
    requires le_place { 1 ≤ place }
    requires place_le_n { place ≤ p.n }
    requires n_bound { p.n ≤ 10 }
    requires count_bound { rs.count ≤ 1000 }
    ensures exact { result ≡ bar_in p (releases_of rs) (uses_told list.now stints) days place t }
{
    let going = t < days;
    let left = left_over(p, rs, list, stints, days, place, t);
    let other = left_bar(left, going);
    if going {
        return used_bar(place, use_on(list, stints, t), other);
    }
    other
}

// The row of the string at a place.
pub(crate) fn row_cells(
    p: Plan,
    rs: Releases,
    list: &[u32],
    stints: usize,
    days: u32,
    drawn: Drawn,
    place: usize,
) -> [u8; 70]
    requires le_place { 1 ≤ place }
    requires place_le_n { place ≤ p.n }
    requires n_bound { p.n ≤ 10 }
    requires count_bound { rs.count ≤ 1000 }
    requires up_to_seventy { UpToSeventy drawn }
    ensures exact { take drawn.count result ≡ cells_of p (releases_of rs) (uses_told list.now stints) days place drawn }
{
    let mut cells = [b' '; 70];
    for (i, c) in drawn.columns[..drawn.count].iter().enumerate() {
        cells[i] = bar_on(p, rs, list, stints, days, place, c.first);
    }
    cells
}
