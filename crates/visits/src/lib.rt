// The contractor's visit list (document 02, W-211): whether it keeps every rule and, where it does not, which record or release breaks one.
#![tactic(auto)]

mod book; // book.rt: what the records so far leave to be remembered
mod own; // own.rt: the visits of our own run
mod texts; // texts.rt: a list as a text

ghost use Rattle.std.specs.Prelude.{◌≡◌};
ghost use Rattle.visits.specs.Visits.{visits_check};

use book::Book;
use days::{Day, Length};
use faults::Checked;
pub use own::own_visits;
use rules::{Plan, Releases};
pub use texts::{check_visit_files, check_visit_text};

// A visit: the release that it serves (its place in the list, from 1), its first day and its length.
#[derive(Clone, Copy)]
pub struct Visit {
    pub release: u32,
    pub first: Day,
    pub length: Length,
}

// The visits of our own run: how many there are; they stand first in the list.
#[derive(Clone, Copy)]
pub struct OwnVisits {
    pub count: usize,
    pub list: [Visit; 3001],
}

// Whether a list of visits keeps every rule: 4 to 8 on the plan and its releases; then 14 with the number of the first record that breaks a
// rule, on its own or against those before it; then 15 with the first release that does not add up. The list is lent and stays as it is.
pub fn check_visits(p: Plan, rs: Releases, visits: &[Visit]) -> Checked
    ensures exact { (result ≡ visits_check p rs visits.now) × (visits.exit.now ≡ visits.entry.now) }
{
    let mut book = Book::opened(p, rs)?;
    for (i, v) in visits.iter().enumerate() {
        book.visited(*v, i + 1)?;
    }
    book.sums_checked()
}
