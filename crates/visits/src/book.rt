// What the records so far leave to be remembered: an account of each release, and beside them the end of the last visit and the release
// that it served.
ghost use Rattle.std.specs.Prelude.{◌≡◌, ◌+◌, ◌≤◌, ◌<◌, ◌^◌, leb, IfSome};
ghost use Rattle.visits.specs.Visits.{end_of_visit};
ghost use Rattle.visits.specs.inner.Book.{Fit, Opens, Opened, short, account_of, account_at, account_after, asked_again, meets_last, kept_by, booked};
ghost use Rattle.visits.specs.inner.Book.{kept_check, book_after, sums_by};

use super::Visit;
use days::{Day, Length};
use faults::{Checked, Fault, Refusal};
use rules::{Plan, Release, Releases};

// What is remembered of a release: its day, its deadline, the moving cost of a later visit, the days asked for and the days had.
#[derive(Clone, Copy)]
pub(crate) struct Account {
    pub(crate) opens: Day,
    pub(crate) due: Day,
    pub(crate) cost: Length,
    pub(crate) asked: Length,
    pub(crate) had: Length,
}

const NO_ACCOUNT: Account = Account {
    opens: Day(0),
    due: Day(0),
    cost: Length(0),
    asked: Length(0),
    had: Length(0),
};

impl Account {
    // The account of a release before its first visit.
    #[tactic(auto, unfolding(crate::specs::inner::Book::account_of))]
    fn of(p: Plan, r: Release) -> Account
        requires { Opens p r }
        ensures exact { result ≡ account_of p r }
    {
        let string = p.strings[r.place - 1];
        Account {
            opens: r.day,
            due: Day(r.due.0 + string.d.0),
            cost: p.moving_cost(string),
            asked: r.need,
            had: Length(0),
        }
    }

    // What a visit asks for: the moving cost, but nothing for the first visit.
    #[tactic(auto, unfolding(crate::specs::inner::Book::asked_again))]
    fn asked_again(self) -> u32
        ensures exact { result ≡ asked_again self.had.0 self.cost.0 }
        ensures most { result ≤ self.cost.0 }
    {
        if self.had.0 == 0 {
            return 0;
        }
        self.cost.0
    }

    // The account with a visit of so many days.
    #[tactic(auto, unfolding(crate::specs::inner::Book::account_after))]
    fn visited(self, length: Length) -> Account
        requires had { self.had.0 + length.0 < 2 ^ 32 }
        requires asked { self.asked.0 + self.cost.0 < 2 ^ 32 }
        ensures exact { result ≡ account_after self length.0 }
    {
        Account {
            asked: Length(self.asked.0 + self.asked_again()),
            had: Length(self.had.0 + length.0),
            ..self
        }
    }
}

impl Visit {
    // Whether a visit ends by a day.
    #[tactic(auto, unfolding(days::specs::Days::gap_of))]
    fn ends_by(self, due: Day) -> bool
        ensures exact { result ≡ leb (end_of_visit self) due.0 }
    {
        match due.since(self.first) {
            Some(left) => self.length <= left,
            None => false,
        }
    }
}

// An account of each of `count` releases; the end of the last visit, and the release that it served, 0 and 0 before the first.
#[derive(Clone, Copy)]
pub(crate) struct Book {
    pub(crate) count: usize,
    pub(crate) accounts: [Account; 1000],
    pub(crate) end: Day,
    pub(crate) release: u32,
}

impl Book {
    // The book before the first record: 4 to 8 on the plan and its releases come first.
    pub(crate) fn opened(p: Plan, rs: Releases) -> Result<Book, Refusal>
        ensures exact { Opened p rs result }
    {
        bounds::run_check(p, rs)?;
        let mut accounts = [NO_ACCOUNT; 1000];
        for (i, r) in rs.list[..rs.count].iter().enumerate() {
            accounts[i] = Account::of(p, *r);
        }
        Ok(Book {
            count: rs.count,
            accounts,
            end: Day(0),
            release: 0,
        })
    }

    // Whether a visit touches the last one, of the same release.
    #[tactic(auto, unfolding(crate::specs::inner::Book::meets_last))]
    fn meets_last(&self, v: Visit) -> bool
        ensures exact { result ≡ meets_last self.now v }
    {
        v.release == self.release && v.first == self.end
    }

    // Whether a record keeps the rules, on its own and against those before it.
    #[tactic(auto, unfolding(crate::specs::inner::Book::kept_by))]
    fn keeps(&self, v: Visit) -> bool
        requires { self.now.count ≤ 1000 }
        ensures exact { result ≡ kept_by self.now v }
    {
        if !(1..=self.count).contains(&(v.release as usize)) {
            return false;
        }
        let account = self.accounts[v.release as usize - 1];
        1 <= v.length.0
            && self.end <= v.first
            && !self.meets_last(v)
            && account.opens <= v.first
            && v.ends_by(account.due)
    }

    // A visit goes into the book.
    #[tactic(auto, unfolding(crate::specs::inner::Book::booked))]
    fn enter(&mut self, v: Visit)
        requires le_release { (1 ≤ v.release) × (v.release ≤ 1000) }
        requires end_bound { end_of_visit v < 2 ^ 32 }
        requires length_bound { (account_at self.old v.release).had.0 + v.length.0 < 2 ^ 32 }
        requires release_bound { (account_at self.old v.release).asked.0 + (account_at self.old v.release).cost.0 < 2 ^ 32 }
        ensures exact { self.new ≡ booked self.old v }
    {
        let at = v.release as usize - 1;
        self.accounts[at] = self.accounts[at].visited(v.length);
        self.end = Day(v.first.0 + v.length.0);
        self.release = v.release;
    }

    // The check of one record, which has the given number, against those before it: one that keeps the rules goes into the book.
    #[tactic(auto, unfolding(crate::specs::inner::Book::kept_check, crate::specs::inner::Book::book_after))]
    pub(crate) fn visited(&mut self, v: Visit, number: usize) -> Checked
        requires { Fit self.old }
        ensures exact { result ≡ kept_check self.old v number }
        ensures book { self.new ≡ book_after self.old v }
    {
        if !self.keeps(v) {
            return Err(Refusal {
                fault: Fault::VisitUnlawful,
                at: number,
            });
        }
        self.enter(v);
        Ok(())
    }

    // Where the first account stands that has not had what is asked for, counted from 0.
    fn first_short(&self) -> Option<usize>
        ensures exact { result ≡ short self.now }
        ensures within { IfSome result (λ i. i < self.now.count) }
    {
        self.accounts
            .iter()
            .take(self.count)
            .position(|account| account.had.0 != account.asked.0)
    }

    // At the end of the list: 15 with the first release that does not add up.
    #[tactic(auto, unfolding(crate::specs::inner::Book::sums_by))]
    pub(crate) fn sums_checked(&self) -> Checked
        requires { self.now.count ≤ 1000 }
        ensures exact { result ≡ sums_by self.now }
    {
        match self.first_short() {
            Some(i) => Err(Refusal {
                fault: Fault::SumDiffers,
                at: i + 1,
            }),
            None => Ok(()),
        }
    }
}
