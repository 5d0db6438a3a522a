// The days on which a yearly test falls, listed in lent memory. They are counted first, so that nothing is written where they do not fit.
ghost use Rattle.std.specs.Prelude.{◌≡◌, ◌≤◌, length};
ghost use Rattle.faults.specs.Checks.{refuse_if};
ghost use Rattle.faults.specs.declared.Fault.TheVariants.{NoSuchDate, NoSuchEdition};
ghost use Rattle.calendar.specs.Numbers.{last_day};
ghost use Rattle.calendar.specs.Yearly.{no_edition, in_no_year, moved_in, in_year, falls_on, yearly_days};
ghost use Rattle.calendar.specs.Refusals.{yearly_answer, yearly_listed};
ghost use Rattle.calendar.specs.inner.Places.{fall_of, at_front};

use super::year::{in_year, leap_year};
use super::{
    Date, LAST_DAY, NO_SUCH_DATE, NO_SUCH_EDITION, YearlyDate, date_check, date_exists, number_of,
};
use days::Day;
use faults::{Checked, Fault, Refusal};

// Refuses a month and a day that exist in no year: if they exist in any, then in 2000, a leap year.
pub(crate) fn yearly_date_check(on: YearlyDate) -> Checked
    ensures exact { result ≡ refuse_if (in_no_year on) NoSuchDate 0 }
{
    date_check(Date {
        year: Date::EPOCH.year,
        month: on.month,
        day: on.day,
    })
}

// Refuses an edition that is neither 1 nor 2.
pub(crate) fn edition_check(edition: u32) -> Checked
    ensures exact { result ≡ refuse_if (no_edition edition) NoSuchEdition 0 }
{
    if (1..=2).contains(&edition) {
        Ok(())
    } else {
        Err(NO_SUCH_EDITION)
    }
}

// A yearly test, and the edition of the guide by which it is done: any number, as `falls_on` answers for any, so no enum.
#[derive(Clone, Copy)]
struct Test {
    on: YearlyDate,
    edition: u32,
}

impl Test {
    // Whether the edition moves the test to 28 February in a year: edition 2 a test of 29 February in a common year.
    #[tactic(auto, unfolding(crate::specs::Yearly::moved_in, crate::specs::Yearly::on_leap_day))]
    fn moved_in(self, year: u32) -> bool
        ensures exact { result ≡ moved_in self.edition self.on year }
    {
        self.edition == 2 && self.on.month == 2 && self.on.day == 29 && !leap_year(year)
    }

    // The date of the test in a year, whether it exists or not.
    #[tactic(auto, unfolding(crate::specs::Yearly::in_year))]
    fn date_in(self, year: u32) -> Date
        ensures exact { result ≡ in_year self.edition self.on year }
    {
        if self.moved_in(year) {
            Date {
                year,
                month: 2,
                day: 28,
            }
        } else {
            Date {
                year,
                month: self.on.month,
                day: self.on.day,
            }
        }
    }
}

// Whether a test falls on a date, by its edition.
#[tactic(auto, unfolding(crate::specs::Yearly::falls_on, crate::specs::Yearly::same_date))]
pub fn falls_on(on: YearlyDate, edition: u32, d: Date) -> bool
    ensures exact { result ≡ falls_on edition on d }
{
    d == Test { on, edition }.date_in(d.year)
}

// A test, and the first and the last of the days among which it is looked for.
#[derive(Clone, Copy)]
struct Search {
    test: Test,
    first: u32,
    last: u32,
}

impl Search {
    // The day of year 2000 + k on which the test falls, if it is one of the days.
    #[tactic(auto, unfolding(crate::specs::inner::Places::fall_of))]
    fn fall_in(self, k: u32) -> Option<u32>
        requires { k ≤ 399 }
        ensures exact { result ≡ fall_of self.test.edition self.test.on self.first self.last k }
    {
        let date = self.test.date_in(Date::EPOCH.year + k);
        if !date_exists(date) {
            return None;
        }
        let day = number_of(date);
        (self.first..=self.last).contains(&day).then_some(day)
    }

    // How many days there are to list. The range is half-open: there are lemmas on its list, and none on that of `..=`.
    fn count_days(self) -> usize
        requires { (self.first ≤ last_day) × (self.last ≤ last_day) }
        ensures exact { result ≡ length (yearly_days self.test.edition self.test.on self.first self.last) }
    {
        (in_year(self.first).whole..in_year(self.last).whole + 1)
            .filter_map(|k| self.fall_in(k))
            .count()
    }

    // The days at the front of a list that has room for them. The place is counted by hand: a chain that is looped over tells of the days
    // that it gave already, and not that those to come fit.
    fn fill(self, list: &mut [u32])
        requires first_le_last_day { (self.first ≤ last_day) × (self.last ≤ last_day) }
        requires last_in_bounds { length (yearly_days self.test.edition self.test.on self.first self.last) ≤ length list.old }
        ensures stored { list.new ≡ at_front (yearly_days self.test.edition self.test.on self.first self.last) list.old }
    {
        let mut at: usize = 0;
        for k in in_year(self.first).whole..in_year(self.last).whole + 1 {
            if let Some(day) = self.fall_in(k) {
                list[at] = day;
                at += 1;
            }
        }
    }
}

// The days on which a yearly test falls by its edition from `first` to `last`, both counted, rising, each once, at the front of `list`.
#[tactic(auto, unfolding(crate::specs::Refusals::yearly_answer, crate::specs::Refusals::yearly_listed))]
pub fn yearly(
    on: YearlyDate,
    edition: u32,
    first: Day,
    last: Day,
    list: &mut [u32],
) -> Result<usize, Refusal>
    ensures exact { result ≡ yearly_answer edition on first.0 last.0 (length list.old) }
    ensures stored { list.new ≡ yearly_listed edition on first.0 last.0 list.old }
{
    edition_check(edition)?;
    yearly_date_check(on)?;
    if LAST_DAY < first || LAST_DAY < last {
        return Err(NO_SUCH_DATE);
    }
    let search = Search {
        test: Test { on, edition },
        first: first.0,
        last: last.0,
    };
    let count = search.count_days();
    if list.len() < count {
        return Err(Refusal {
            fault: Fault::NoRoom,
            at: 0,
        });
    }
    search.fill(list);
    Ok(count)
}
