// The stints of a run as it goes: those that are finished stand in the lent list, as far as it has room; the last may yet grow.
ghost use Rattle.std.specs.Prelude.{◌≡◌, ◌+◌, ◌<◌, ◌^◌};
ghost use Rattle.rules.specs.Stints.{same_use, kind_of, place_used, release_used};
ghost use Rattle.run.specs.inner.Book.{Writable, stored_at, closed_count, closed_list, noted_book, noted_list};

use days::Length;
use rules::{Stint, Use};

// How many stints are finished, and the one that may yet grow; before day 0 it has no days.
#[derive(Clone, Copy)]
pub(crate) struct Book {
    pub(crate) finished: usize,
    pub(crate) current: Stint,
}

// What the bank did, as the number that the list has for it (the C interface): nothing 0, work 1, moving 2.
fn kind(used: Use) -> u32
    ensures exact { result ≡ kind_of used }
{
    match used {
        Use::Idle => 0,
        Use::Work { .. } => 1,
        Use::Move { .. } => 2,
    }
}

// The place for which it did it; 0 for nothing.
fn place_of(used: Use) -> usize
    ensures exact { result ≡ place_used used }
{
    match used {
        Use::Idle => 0,
        Use::Work { place, .. } | Use::Move { place, .. } => place,
    }
}

// And the release; 0 for nothing.
fn release_of(used: Use) -> usize
    ensures exact { result ≡ release_used used }
{
    match used {
        Use::Idle => 0,
        Use::Work { serves, .. } | Use::Move { serves, .. } => serves,
    }
}

// Whether the bank did the same.
#[tactic(auto, using(crate::proofs::Booking::same_numbers))]
fn same_use(u: Use, v: Use) -> bool
    ensures exact { result ≡ same_use u v }
{
    kind(u) == kind(v) && place_of(u) == place_of(v) && release_of(u) == release_of(v)
}

impl Book {
    // The five numbers of the last stint at its place in the list, where there is room for them.
    fn write_stint(self, list: &mut [u32])
        requires { Writable self }
        ensures stored { list.new ≡ stored_at self.finished self.current list.old }
    {
        let at = 5 * self.finished;
        let Stint {
            first,
            length,
            used,
        } = self.current;
        if at + 5 <= list.len() {
            list[at..at + 5].copy_from_slice(&[
                first.0,
                length.0,
                kind(used),
                place_of(used) as u32,
                release_of(used) as u32,
            ]);
        }
    }

    // Finishes the last stint, if it has a day, and says how many stints there are.
    #[tactic(auto, unfolding(crate::specs::inner::Book::closed_count, crate::specs::inner::Book::closed_list))]
    pub(crate) fn close(self, list: &mut [u32]) -> usize
        requires { Writable self }
        ensures count { result ≡ closed_count self }
        ensures stored { list.new ≡ closed_list self list.old }
    {
        if self.current.length.0 == 0 {
            return self.finished;
        }
        self.write_stint(list);
        self.finished + 1
    }

    // A stretch of days comes: the last stint goes on, or it is finished and another begins.
    #[tactic(auto, unfolding(crate::specs::inner::Book::noted_book, crate::specs::inner::Book::noted_list))]
    pub(crate) fn noted(self, list: &mut [u32], stretch: Stint) -> Book
        requires writable { Writable self }
        requires length_bound { self.current.length.0 + stretch.length.0 < 2 ^ 32 }
        ensures exact { result ≡ noted_book self stretch }
        ensures stored { list.new ≡ noted_list self stretch list.old }
    {
        if same_use(self.current.used, stretch.used) {
            let length = Length(self.current.length.0 + stretch.length.0);
            return Book {
                current: Stint {
                    length,
                    ..self.current
                },
                ..self
            };
        }
        Book {
            finished: self.close(list),
            current: stretch,
        }
    }
}
