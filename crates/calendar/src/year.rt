// Years: leap years, and the year in which a day lies.
ghost use Rattle.std.specs.Prelude.{◌≡◌, cond, ◌+◌, ◌≤◌};
ghost use Rattle.calendar.specs.Years.{leap_year};
ghost use Rattle.calendar.specs.Numbers.{days_before_year, last_day};
ghost use Rattle.calendar.specs.inner.Places.{InYear};

// Whole years or months, and the days that are left.
#[derive(Clone, Copy)]
pub(crate) struct Within {
    pub whole: u32,
    pub rest: u32,
}

// Whether a year is a leap year.
#[tactic(auto, unfolding(crate::specs::Years::leap_year))]
pub(crate) fn leap_year(year: u32) -> bool
    ensures exact { result ≡ leap_year year }
{
    year % 4 == 0 && (year % 100 != 0 || year % 400 == 0)
}

// The days of a year's February.
pub(crate) fn february(year: u32) -> u32
    ensures exact { result ≡ cond (leap_year year) 29 28 }
{
    if leap_year(year) { 29 } else { 28 }
}

// The day number of 1 January of year 2000 + k: a day more after every fourth year, none after a hundredth, but after a four hundredth.
pub(crate) fn year_start(k: u32) -> u32
    requires { k ≤ 400 }
    ensures exact { result ≡ days_before_year (2000 + k) }
{
    365 * k + (k + 3) / 4 + (k + 399) / 400 - (k + 99) / 100
}

// The years before a day, and the days of its year that lie before it. 400 years have 146,097 days: dividing by their mean length gives the
// number of years, or one too many.
pub(crate) fn in_year(day: u32) -> Within
    requires { day ≤ last_day }
    ensures placed { InYear day result.whole result.rest }
{
    let guess = (400 * day + 396) / 146097;
    let first = year_start(guess);
    if first <= day {
        Within {
            whole: guess,
            rest: day - first,
        }
    } else {
        let whole = guess - 1;
        Within {
            whole,
            rest: day - year_start(whole),
        }
    }
}
