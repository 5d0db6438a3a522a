// The run from event to event: a release, a finished part of a job, a deadline that comes up, the end of the run. Between two events every
// day is as the one before, so that a day is looked at only where something may happen.
ghost use Rattle.std.specs.Prelude.{◌≡◌};
ghost use Rattle.rules.specs.Release.{releases_of};
ghost use Rattle.laws.proofs.Releases.{LawfulRun};
ghost use Rattle.run.specs.inner.Walk.{Ends, Tells};

use super::book::Book;
use super::day::{morning, use_days};
use super::release::{day_after, join_today, next_release};
use super::tally::Tally;
use days::{Day, Length};
use rules::{Outcome, Plan, Releases, Stint, Use};
use slots::{empty_slots, late_place};

// How the run ended, and how many stints it had.
#[derive(Clone, Copy)]
pub(crate) struct Walked {
    pub(crate) outcome: Outcome,
    pub(crate) stints: usize,
}

// The run under a lawful plan and lawful releases, its stints written into the lent list as far as it has room. `next` is the index of the
// first release that has not joined.
pub(crate) fn walk(p: Plan, rs: &Releases, list: &mut [u32]) -> Walked
    requires { LawfulRun p rs.now }
    ensures exact { Ends p (releases_of rs.now) result }
    ensures told { Tells p (releases_of rs.now) list.old list.new }
{
    let end = day_after(Day(0), p.run);
    let releases = &rs.list[..rs.count];
    let mut row = empty_slots(p.strings);
    let slots = &mut row[..p.n];
    let mut tally = Tally {
        work: Length(0),
        moving: Length(0),
        idle: Length(0),
    };
    let mut book = Book {
        finished: 0,
        current: Stint {
            first: Day(0),
            length: Length(0),
            used: Use::Idle,
        },
    };
    let mut next: usize = 0;
    let mut today = Day(0);
    loop {
        if let Some(place) = late_place(slots, today) {
            return Walked {
                outcome: Outcome::Miss { day: today, place },
                stints: book.close(list),
            };
        }
        if end <= today {
            return Walked {
                outcome: tally.clean(),
                stints: book.close(list),
            };
        }
        let coming = join_today(slots, p, releases, next, today);
        let until = next_release(releases, coming, end);
        morning(slots, p, today, next < coming);
        next = coming;
        let stretch = use_days(slots, today, until);
        tally = tally.with(stretch.used, stretch.length);
        book = book.noted(list, stretch);
        today = day_after(today, stretch.length);
    }
}
