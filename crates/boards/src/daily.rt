// A day of the board: its line, and one for each yearly test that falls on it.
ghost use Rattle.std.specs.Prelude.{◌≡◌, count_by, [], ◌∷◌, ◌++◌, ◌+◌, ◌-◌, ◌*◌, ◌%◌, ◌≤◌, length, replicate};
ghost use Rattle.base.specs.Count.{keep, put_at};
ghost use Rattle.calendar.specs.Numbers.{date_of, last_day};
ghost use Rattle.boards.specs.Board.{tests_of};
ghost use Rattle.boards.specs.Paging.{fitted, days_fitted};
ghost use Rattle.boards.specs.inner.Daily.{head_with, yearly_tail, falls_by, tests_text, day_text, put_from};

use super::{Diary, Filled, Test};
use calendar::{Date, YearlyDate, falls_on};
use days::Day;
use lines::used_line;
use rules::Use;

// The date of a day of the calendar.
#[tactic(auto, unfolding(calendar::specs::Refusals::date_answer))]
pub(crate) fn date_on(day: u32) -> Date
    requires { day ≤ last_day }
    ensures exact { result ≡ date_of day }
{
    Date::from_day(Day(day)).unwrap_or(Date::EPOCH)
}

// The last digit of a number.
fn figure(n: u32) -> u8
    ensures exact { result ≡ 0x30 + n % 10 }
{
    b'0' + (n % 10) as u8
}

// A date and its weekday, each with a space behind it.
pub(crate) fn head(d: Date, day: u32) -> [u8; 15]
    ensures exact { result ≡ head_with d day }
{
    let names: &[u8] = b"SatSunMonTueWedThuFri";
    let at = 3 * (day % 7) as usize;
    [
        figure(d.year / 10 / 10 / 10),
        figure(d.year / 10 / 10),
        figure(d.year / 10),
        figure(d.year),
        b'-',
        figure(d.month / 10),
        figure(d.month),
        b'-',
        figure(d.day / 10),
        figure(d.day),
        b' ',
        names[at],
        names[at + 1],
        names[at + 2],
        b' ',
    ]
}

// What stands behind them in the line of a yearly test.
fn yearly_tail(t: Test) -> [u8; 13]
    ensures exact { result ≡ yearly_tail t }
{
    [
        b'y',
        b'e',
        b'a',
        b'r',
        b'l',
        b'y',
        b' ',
        figure(t.month / 10),
        figure(t.month),
        b'-',
        figure(t.day / 10),
        figure(t.day),
        b'\n',
    ]
}

// Whether a test falls on a date.
#[tactic(auto, unfolding(crate::specs::inner::Daily::falls_by))]
fn falls(t: Test, d: Date) -> bool
    ensures exact { result ≡ falls_by d t }
{
    let on = YearlyDate {
        month: t.month,
        day: t.day,
    };
    falls_on(on, t.edition, d)
}

// A text into a page from a place on, and the place behind it.
fn put(page: &mut [u8], at: usize, text: &[u8]) -> usize
    requires { at + length text.now ≤ length page.old }
    ensures next { result ≡ at + length text.now }
    ensures stored { page.new ≡ put_at at text.now page.old }
{
    let next = at + text.len();
    page[at..next].copy_from_slice(text);
    next
}

// A line: its head and what stands behind.
pub(crate) fn put_line(page: &mut [u8], at: usize, head: [u8; 15], tail: &[u8]) -> usize
    requires { at + length (head ++ tail.now) ≤ length page.old }
    ensures next { result ≡ at + length (head ++ tail.now) }
    ensures stored { page.new ≡ put_at at (head ++ tail.now) page.old }
{
    let next = put(page, at, &head);
    put(page, next, tail)
}

// The line of a test, if it falls on the date.
fn put_test(page: &mut [u8], at: usize, head: [u8; 15], t: Test, d: Date) -> usize
    requires { at + length (tests_text head d (t ∷ [])) ≤ length page.old }
    ensures next { result ≡ at + length (tests_text head d (t ∷ [])) }
    ensures stored { page.new ≡ put_at at (tests_text head d (t ∷ [])) page.old }
{
    if falls(t, d) {
        let tail = yearly_tail(t);
        return put_line(page, at, head, &tail);
    }
    at
}

// How many of some tests fall on a date.
fn falls_in(tests: &[Test], d: Date) -> usize
    ensures exact { result ≡ count_by (falls_by d) tests.now }
{
    tests.iter().filter(|t| falls(**t, d)).count()
}

// How many tests of a diary fall on a date.
fn falling(diary: Diary, d: Date) -> usize
    ensures exact { result ≡ length (keep (falls_by d) (tests_of diary)) }
    ensures few { result ≤ 20 }
{
    falls_in(&diary.tests[..diary.count.min(20)], d)
}

// The lines of the tests of a diary that fall on a date.
fn put_tests(page: &mut [u8], at: usize, head: [u8; 15], diary: Diary, d: Date) -> usize
    requires { at + length (tests_text head d (tests_of diary)) ≤ length page.old }
    ensures next { result ≡ at + length (tests_text head d (tests_of diary)) }
    ensures stored { page.new ≡ put_at at (tests_text head d (tests_of diary)) page.old }
{
    let mut place = at;
    for t in &diary.tests[..diary.count.min(20)] {
        place = put_test(page, place, head, *t, d);
    }
    place
}

// All that is written of a day.
fn put_day(page: &mut [u8], at: usize, head: [u8; 15], tail: &[u8], diary: Diary, d: Date) -> usize
    requires { at + length (day_text head tail.now d (tests_of diary)) ≤ length page.old }
    ensures next { result ≡ at + length (day_text head tail.now d (tests_of diary)) }
    ensures stored { page.new ≡ put_at at (day_text head tail.now d (tests_of diary)) page.old }
{
    let next = put_line(page, at, head, tail);
    put_tests(page, next, head, diary, d)
}

// So many days in a row, from a day of the calendar on, on which the bank did one thing, as far as they fit: whole days.
pub(crate) fn put_days(
    page: &mut [u8],
    at: usize,
    first: u32,
    count: u32,
    used: Use,
    diary: Diary,
) -> Filled
    requires at_in_bounds { at ≤ length page.old }
    requires count_bound { first + count ≤ last_day + 1 }
    ensures days { result.days ≡ days_fitted (length page.old - at) first (tests_of diary) (replicate count used) }
    ensures long { result.length ≡ length (fitted (length page.old - at) first (tests_of diary) (replicate count used)) }
    ensures stored { page.new ≡ put_from at first (tests_of diary) (replicate count used) page.old }
{
    let line = used_line(used);
    let len = line.len;
    let bytes = line.bytes;
    let mut place = at;
    let mut passed: u32 = 0;
    while passed < count {
        let day = first + passed;
        let d = date_on(day);
        let size = 15 + len + 28 * falling(diary, d);
        if page.len() - place < size {
            return Filled {
                days: passed as usize,
                length: place - at,
            };
        }
        place = put_day(page, place, head(d, day), &bytes[..len], diary, d);
        passed += 1;
    }
    Filled {
        days: passed as usize,
        length: place - at,
    }
}
