// The Gregorian calendar from 1 January 2000, which is day 0, to 31 December 2399 (document 02, W-203). Knows no plan.
#![tactic(auto)]

mod listing;
mod month;
mod text;
mod year;

ghost use Rattle.std.specs.Prelude.{◌≡◌, true, not, ◌≤◌};
ghost use Rattle.faults.specs.Checks.{refuse_if};
ghost use Rattle.faults.specs.declared.Fault.TheVariants.{NoSuchDate};
ghost use Rattle.calendar.specs.Dates.{epoch, date_exists};
ghost use Rattle.calendar.specs.Numbers.{day_number, date_of, last_day};
ghost use Rattle.calendar.specs.Weekdays.{weekday_of};
ghost use Rattle.calendar.specs.Refusals.{date_answer, day_answer, weekday_answer};

use days::Day;
use faults::{Checked, Fault, Refusal};
pub use listing::{falls_on, yearly};
use month::{in_month, month_length, month_start};
pub use text::{date_read, date_text, day_read, edition_read, fits, yearly_read, yearly_text};
use year::{february, in_year, year_start};

// 31 December 2399.
pub(crate) const LAST_DAY: Day = Day(146096);

// No date of the calendar, a month and day of no year, or no day of the calendar.
pub(crate) const NO_SUCH_DATE: Refusal = Refusal {
    fault: Fault::NoSuchDate,
    at: 0,
};

// An edition that is neither 1 nor 2.
pub(crate) const NO_SUCH_EDITION: Refusal = Refusal {
    fault: Fault::NoSuchEdition,
    at: 0,
};

// A day of a month of a year. It may not exist: every function that is given one says so.
#[derive(Clone, Copy, PartialEq, Eq)]
pub struct Date {
    pub year: u32,
    pub month: u32,
    pub day: u32,
}

// The week from Saturday on: day 0 is a Saturday.
#[derive(Clone, Copy, PartialEq, Eq)]
pub enum Weekday {
    Saturday,
    Sunday,
    Monday,
    Tuesday,
    Wednesday,
    Thursday,
    Friday,
}

// A month and a day of it, in whatever year.
#[derive(Clone, Copy, PartialEq, Eq)]
pub struct YearlyDate {
    pub month: u32,
    pub day: u32,
}

impl Date {
    // Day 0, a Saturday.
    pub const EPOCH: Date = Date {
        year: 2000,
        month: 1,
        day: 1,
    };

    // The epoch as a value: a contract speaks of what a function gives, and of no constant.
    pub fn first() -> Date
        ensures exact { result ≡ epoch }
    {
        Date::EPOCH
    }

    // The date of a day.
    #[tactic(auto, unfolding(crate::specs::Refusals::date_answer))]
    pub fn from_day(day: Day) -> Result<Date, Refusal>
        ensures exact { result ≡ date_answer day.0 }
    {
        if day <= LAST_DAY {
            Ok(date_of(day))
        } else {
            Err(NO_SUCH_DATE)
        }
    }

    // The day of a date.
    #[tactic(auto, unfolding(crate::specs::Refusals::day_answer))]
    pub fn day_number(self) -> Result<Day, Refusal>
        ensures exact { result ≡ day_answer self }
    {
        date_check(self)?;
        Ok(Day(number_of(self)))
    }

    // The weekday of a date.
    #[tactic(auto, unfolding(crate::specs::Refusals::weekday_answer))]
    pub fn weekday(self) -> Result<Weekday, Refusal>
        ensures exact { result ≡ weekday_answer self }
    {
        date_check(self)?;
        Ok(weekday_of(number_of(self)))
    }
}

// Whether a date is one of the calendar's.
#[tactic(auto, unfolding(crate::specs::Dates::date_exists, crate::specs::Years::month_length, crate::specs::Years::month_lengths))]
pub(crate) fn date_exists(d: Date) -> bool
    ensures exact { result ≡ date_exists d }
{
    (Date::EPOCH.year..=2399).contains(&d.year)
        && (1..=12).contains(&d.month)
        && (1..=month_length(february(d.year), d.month)).contains(&d.day)
}

// Refuses a date that is none of the calendar's.
pub(crate) fn date_check(d: Date) -> Checked
    ensures exact { result ≡ refuse_if (not (date_exists d)) NoSuchDate 0 }
{
    if date_exists(d) {
        Ok(())
    } else {
        Err(NO_SUCH_DATE)
    }
}

// The days that lie before a date.
pub(crate) fn number_of(d: Date) -> u32
    requires { date_exists d ≡ true }
    ensures exact { result ≡ day_number d }
{
    year_start(d.year - Date::EPOCH.year) + month_start(february(d.year), d.month) + (d.day - 1)
}

// The date of a day of the calendar.
pub(crate) fn date_of(day: Day) -> Date
    requires { day.0 ≤ last_day }
    ensures exact { result ≡ date_of day.0 }
{
    let in_year = in_year(day.0);
    let year = Date::EPOCH.year + in_year.whole;
    let in_month = in_month(february(year), in_year.rest);
    Date {
        year,
        month: in_month.whole,
        day: in_month.rest + 1,
    }
}

// The weekday of a day: the week starts anew on every seventh day from Saturday, day 0.
#[tactic(auto, unfolding(crate::specs::Weekdays::weekday_of))]
pub(crate) fn weekday_of(day: u32) -> Weekday
    ensures exact { result ≡ weekday_of day }
{
    match day % 7 {
        0 => Weekday::Saturday,
        1 => Weekday::Sunday,
        2 => Weekday::Monday,
        3 => Weekday::Tuesday,
        4 => Weekday::Wednesday,
        5 => Weekday::Thursday,
        _ => Weekday::Friday,
    }
}
