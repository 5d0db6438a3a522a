// Months of a year whose February has a given number of days.
// With 30 days in February the months would start on the days (367 m - 362) / 12: what February lacks is put in and taken out again.
ghost use Rattle.std.specs.Prelude.{◌≡◌, ◌+◌, ◌-◌, ◌≤◌, ◌<◌, get_or, take};
ghost use Rattle.base.specs.Count.{sum_of};
ghost use Rattle.calendar.specs.Years.{months_with};
ghost use Rattle.calendar.specs.inner.Places.{InMonth};

use super::year::Within;

// The days of a month.
#[tactic(auto, unfolding(crate::specs::Years::months_with))]
pub(crate) fn month_length(february: u32, month: u32) -> u32
    requires { (1 ≤ month) × (month ≤ 12) }
    ensures exact { result ≡ get_or (months_with february) (month - 1) 0 }
{
    match month {
        2 => february,
        4 | 6 | 9 | 11 => 30,
        _ => 31,
    }
}

// The days that lie before a month.
pub(crate) fn month_start(february: u32, month: u32) -> u32
    requires le_month { (1 ≤ month) × (month ≤ 12) }
    requires february_bound { february ≤ 30 }
    ensures exact { result ≡ sum_of (λ n. n) (take (month - 1) (months_with february)) }
{
    let full = (367 * month - 362) / 12;
    if month <= 2 {
        full
    } else {
        full - (30 - february)
    }
}

// The same for a year whose February has 30 days.
fn in_full_month(day: u32) -> Within
    requires { day ≤ 366 }
    ensures placed { InMonth 30 day result.whole result.rest }
{
    let month = (12 * day + 373) / 367;
    Within {
        whole: month,
        rest: day - (367 * month - 362) / 12,
    }
}

// The month in which a day of the year lies, counted from 0, and the days of the month that lie before it.
pub(crate) fn in_month(february: u32, day: u32) -> Within
    requires february_bound { february ≤ 30 }
    requires day_bound { day < 337 + february }
    ensures placed { InMonth february day result.whole result.rest }
{
    if day < 31 + february {
        in_full_month(day)
    } else {
        in_full_month(day + (30 - february))
    }
}
