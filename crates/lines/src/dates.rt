// The lines of the calendar: the day and the weekday of a date, the date and the weekday of a day.
ghost use Rattle.std.specs.Prelude.{◌≡◌, MatchResult};
ghost use Rattle.rules.specs.Lines.{refused_line};
ghost use Rattle.lines.specs.Pages.{page_of};
ghost use Rattle.lines.specs.Dates.{weekday_name, date_line, day_line};

use super::Page;
use super::pages::blank;
use super::parts::refused;
use calendar::{Date, Weekday, date_read, date_text};
use days::Day;
use faults::Refusal;

// The first three letters of a weekday's name.
#[tactic(auto, unfolding(rules::specs::Lines::bytes_of, crate::specs::Dates::weekday_name))]
fn weekday_name(weekday: Weekday) -> [u8; 3]
    ensures exact { result ≡ weekday_name weekday }
{
    match weekday {
        Weekday::Saturday => *b"Sat",
        Weekday::Sunday => *b"Sun",
        Weekday::Monday => *b"Mon",
        Weekday::Tuesday => *b"Tue",
        Weekday::Wednesday => *b"Wed",
        Weekday::Thursday => *b"Thu",
        Weekday::Friday => *b"Fri",
    }
}

// The day number and the weekday of a date that is given as a text.
#[tactic(auto, unfolding(crate::specs::Dates::date_line, crate::specs::Dates::date_line_for))]
fn date_told(text: &[u8]) -> Result<Page, Refusal>
    ensures exact { MatchResult result
        (λ page. page ≡ page_of (date_line text.now)) (λ e. refused_line e.fault e.at ≡ date_line text.now) }
    ensures kept { text.exit.now ≡ text.entry.now }
{
    let date = date_read(text)?;
    let day = date.day_number()?;
    let weekday = date.weekday()?;
    Ok(
        blank()
            .fill_in(b"# ", &[day.0 as u64])
            .append(&weekday_name(weekday))
            .append(b"\n"),
    )
}

// The line of it, or of its refusal.
pub fn date_line(text: &[u8]) -> Page
    ensures exact { result ≡ page_of (date_line text.now) }
    ensures kept { text.exit.now ≡ text.entry.now }
{
    date_told(text).unwrap_or_else(refused)
}

// The date and the weekday of a day.
#[tactic(auto, unfolding(crate::specs::Dates::day_line, crate::specs::Dates::day_line_for))]
fn day_told(day: Day) -> Result<Page, Refusal>
    ensures exact { MatchResult result
        (λ page. page ≡ page_of (day_line day.0)) (λ e. refused_line e.fault e.at ≡ day_line day.0) }
{
    let date = Date::from_day(day)?;
    let weekday = date.weekday()?;
    let text = date_text(date)?;
    Ok(
        blank()
            .append(&text)
            .append(b" ")
            .append(&weekday_name(weekday))
            .append(b"\n"),
    )
}

// The line of it, or of its refusal.
pub fn day_line(day: Day) -> Page
    ensures exact { result ≡ page_of (day_line day.0) }
{
    day_told(day).unwrap_or_else(refused)
}
