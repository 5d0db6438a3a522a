// Dates as texts: ten characters for a date, five for a month and a day, one for an edition.
ghost use Rattle.std.specs.Prelude.{◌≡◌, ◌+◌, ◌-◌, ◌≤◌, ◌%◌, length, take, drop};
ghost use Rattle.calendar.specs.Texts.{fits_at, number, date_reading, yearly_reading, date_writing, yearly_writing};
ghost use Rattle.calendar.specs.Texts.{fits as fits_form, no_number, day_reading, edition_reading};
ghost use Rattle.calendar.specs.inner.Places.{digits_number};

use super::listing::{edition_check, yearly_date_check};
use super::{Date, LAST_DAY, NO_SUCH_DATE, NO_SUCH_EDITION, YearlyDate, date_check};
use days::Day;
use faults::Refusal;

// ---- Reading

// Whether a byte may stand where the form has `c`: a digit for a 0, else the form's own.
#[tactic(auto, unfolding(crate::specs::Texts::fits_at))]
fn fits_at(c: u8, b: u8) -> bool
    ensures exact { result ≡ fits_at c b }
{
    if c == b'0' {
        b.is_ascii_digit()
    } else {
        c == b
    }
}

// Whether a text has a form.
pub fn fits(form: &[u8], text: &[u8]) -> bool
    ensures exact { result ≡ fits_form form.now text.now }
    ensures kept { (form.exit.now ≡ form.entry.now) × (text.exit.now ≡ text.entry.now) }
{
    form.len() == text.len() && form.iter().zip(text).all(|(c, b)| fits_at(*c, *b))
}

// What a byte is worth as a digit.
fn worth(b: u8) -> u32
    ensures exact { result ≡ b - 0x30 }
    ensures small { result ≤ 207 }
{
    u32::from(b.saturating_sub(b'0'))
}

// The number that two digits write.
fn pair_at(text: &[u8], at: usize) -> u32
    requires { at + 2 ≤ length text.now }
    ensures exact { result ≡ number (take 2 (drop at text.now)) }
    ensures small { result ≤ 2277 }
{
    10 * worth(text[at]) + worth(text[at + 1])
}

// The date that a text writes.
pub fn date_read(text: &[u8]) -> Result<Date, Refusal>
    ensures exact { result ≡ date_reading text.now }
    ensures kept { text.exit.now ≡ text.entry.now }
{
    if !fits(b"0000-00-00", text) {
        return Err(NO_SUCH_DATE);
    }
    let date = Date {
        year: 100 * pair_at(text, 0) + pair_at(text, 2),
        month: pair_at(text, 5),
        day: pair_at(text, 8),
    };
    date_check(date)?;
    Ok(date)
}

// The month and the day that a text writes.
pub fn yearly_read(text: &[u8]) -> Result<YearlyDate, Refusal>
    ensures exact { result ≡ yearly_reading text.now }
    ensures kept { text.exit.now ≡ text.entry.now }
{
    if !fits(b"00-00", text) {
        return Err(NO_SUCH_DATE);
    }
    let on = YearlyDate {
        month: pair_at(text, 0),
        day: pair_at(text, 3),
    };
    yearly_date_check(on)?;
    Ok(on)
}

// The edition that a text writes.
pub fn edition_read(text: &[u8]) -> Result<u32, Refusal>
    ensures exact { result ≡ edition_reading text.now }
    ensures kept { text.exit.now ≡ text.entry.now }
{
    if !fits(b"0", text) {
        return Err(NO_SUCH_EDITION);
    }
    let edition = worth(text[0]);
    edition_check(edition)?;
    Ok(edition)
}

// The day that digits write; none for one past the last, and where another character stands.
fn digits_number(text: &[u8]) -> Option<u32>
    ensures exact { result ≡ digits_number text.now }
{
    let mut n: u32 = 0;
    for b in text {
        if !b.is_ascii_digit() {
            return None;
        }
        n = 10 * n + worth(*b);
        if LAST_DAY.0 < n {
            return None;
        }
    }
    Some(n)
}

// Whether a text has more than one character and starts with a zero, or has none at all.
#[tactic(auto, unfolding(crate::specs::Texts::no_number))]
fn no_number(text: &[u8]) -> bool
    ensures exact { result ≡ no_number text.now }
{
    matches!(text, [] | [b'0', _, ..])
}

// The day that a text writes in decimal.
#[tactic(auto, unfolding(crate::specs::Texts::day_reading, crate::specs::inner::Places::digits_number))]
pub fn day_read(text: &[u8]) -> Result<Day, Refusal>
    ensures exact { result ≡ day_reading text.now }
    ensures kept { text.exit.now ≡ text.entry.now }
{
    if no_number(text) {
        return Err(NO_SUCH_DATE);
    }
    digits_number(text).map(Day).ok_or(NO_SUCH_DATE)
}

// ---- Writing

// The last digit of a number.
fn figure(n: u32) -> u8
    ensures exact { result ≡ 0x30 + n % 10 }
{
    b'0' + (n % 10) as u8
}

// The text of a date.
pub fn date_text(d: Date) -> Result<[u8; 10], Refusal>
    ensures exact { result ≡ date_writing d }
{
    date_check(d)?;
    Ok([
        figure(d.year / 1000),
        figure(d.year / 100),
        figure(d.year / 10),
        figure(d.year),
        b'-',
        figure(d.month / 10),
        figure(d.month),
        b'-',
        figure(d.day / 10),
        figure(d.day),
    ])
}

// The text of a month and a day.
pub fn yearly_text(on: YearlyDate) -> Result<[u8; 5], Refusal>
    ensures exact { result ≡ yearly_writing on }
{
    yearly_date_check(on)?;
    Ok([
        figure(on.month / 10),
        figure(on.month),
        b'-',
        figure(on.day / 10),
        figure(on.day),
    ])
}
