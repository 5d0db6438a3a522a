// Step 2: the releases of a day join.
ghost use Rattle.std.specs.Prelude.{◌≡◌, ◌+◌, ◌-◌, ◌≤◌, ◌<◌, ◌^◌, cond, ltb, set, get_or, length};
ghost use Rattle.days.specs.Days.{day};
ghost use Rattle.rules.specs.Run.{new_slot};
ghost use Rattle.rules.specs.Release.{no_release, first_unlawful};
ghost use Rattle.laws.proofs.Lawful.{LawfulPlan};
ghost use Rattle.run.specs.inner.Join.{Joins, Joining, Joined};

use days::{Day, Length};
use rules::{Job, Plan, Release, Slot};

// The day that lies `length` after `from`, where the code's numbers can say it.
#[tactic(auto, unfolding(days::specs::Days::later_of))]
pub(crate) fn day_after(from: Day, length: Length) -> Day
    requires { from.0 + length.0 < 2 ^ 32 }
    ensures exact { result ≡ day (from.0 + length.0) }
{
    from.plus(length).unwrap_or(from)
}

// The release r, which stands at place `serves` of its list, comes into the slot of its string.
#[tactic(auto, unfolding(rules::specs::Run::new_slot))]
fn join(slots: &mut [Slot], p: Plan, r: Release, serves: usize)
    requires joins { Joins p r }
    requires within { r.place ≤ length slots.old }
    ensures exact { slots.new ≡ set slots.old (r.place - 1) (new_slot p r serves) }
{
    let string = p.strings[r.place - 1];
    slots[r.place - 1] = Slot {
        string,
        job: Job::Waiting {
            work: r.need,
            moving: Length(0),
        },
        release: r.day,
        deadline: day_after(r.due, string.d),
        serves,
    };
}

// The releases of today join, from the index `next` on; what comes back is the index of the first that has not. The list is sorted by
// day, so no other can join before it.
pub(crate) fn join_today(
    slots: &mut [Slot],
    p: Plan,
    releases: &[Release],
    next: usize,
    today: Day,
) -> usize
    requires plan { LawfulPlan p }
    requires lawful { first_unlawful p releases.now ≡ 0 }
    requires row { length slots.old ≡ p.n }
    requires joining { Joining p releases.now today.0 next slots.old next }
    ensures exact { Joined p releases.now today.0 next slots.new result }
{
    let mut next = next;
    while next < releases.len() && releases[next].day == today {
        join(slots, p, releases[next], next + 1);
        next += 1;
    }
    next
}

// The day of the first release that has not joined; `end` where all have.
pub(crate) fn next_release(releases: &[Release], next: usize, end: Day) -> Day
    ensures exact { result ≡ cond (ltb next (length releases.now)) (get_or releases.now next no_release).day end }
{
    match releases.get(next) {
        Some(r) => r.day,
        None => end,
    }
}
