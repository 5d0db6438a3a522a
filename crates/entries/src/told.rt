// What a C program is told: an answer as a kind and four numbers, or a text.
ghost use Rattle.std.specs.Prelude.{◌≡◌};
ghost use Rattle.faults.specs.Checks.{fault_number};
ghost use Rattle.rules.specs.Said.{checked_says, asked_verdict_says, asked_assign_says, asked_outcome_says};
ghost use Rattle.lines.specs.Pages.{text_of, length_told, page_told};
ghost use Rattle.entries.specs.Told.{row, refused_row, row_of, stinted_row, limit_row, missing_row, date_row, day_row, kind_told, places_told};

use calendar::Date;
use days::Day;
use faults::{Checked, Refusal};
use lines::{Limit, Page, put_text};
use rules::{Assign, Outcome, Verdict};
use tries::Missing;

// A kind, and the numbers that it comes with; 0 stands where there is nothing to say.
#[derive(Clone, Copy)]
pub(crate) struct Row {
    pub kind: u32,
    pub first: u64,
    pub second: u64,
    pub third: u64,
    pub fourth: u64,
}

const REFUSED: u32 = 0;

const PASS: u32 = 1;

const FAIL: u32 = 2;

const OVERLOAD: u32 = 3;

const TAKERS: u32 = 4;

const NOBODY: u32 = 5;

const CLEAN: u32 = 6;

const MISS: u32 = 7;

const LAWFUL: u32 = 8;

pub(crate) const NO_ROOM: u32 = 9;

const DATE: u32 = 10;

const DAY: u32 = 11;

const STINTS: u32 = 12;

const NONE_PASSES: u32 = 13;

const NONE_MISSES: u32 = 14;

const LIST_MISSES: u32 = 15;

const LIST_TOO_LONG: u32 = 16;

const NONE_FOUND: u32 = 17;

const LIMIT: u32 = 18;

const NO_LIMIT: u32 = 19;

// A row of counts.
fn row_of(kind: u32, first: u32, second: u32, third: u32, fourth: u32) -> Row
    ensures exact { result ≡ row kind first second third fourth }
{
    Row {
        kind,
        first: first as u64,
        second: second as u64,
        third: third as u64,
        fourth: fourth as u64,
    }
}

// A number and where.
fn row_at(kind: u32, first: u32, at: usize) -> Row
    ensures exact { result ≡ row kind first at 0 0 }
{
    Row {
        kind,
        first: first as u64,
        second: at as u64,
        third: 0,
        fourth: 0,
    }
}

fn refused_row(refusal: Refusal) -> Row
    ensures exact { result ≡ refused_row (fault_number refusal.fault) refusal.at }
{
    row_at(REFUSED, u32::from(refusal.fault), refusal.at)
}

pub(crate) fn checked_row(c: Checked) -> Row
    ensures exact { result ≡ row_of (checked_says c) }
{
    match c {
        Ok(()) => row_of(LAWFUL, 0, 0, 0, 0),
        Err(refusal) => refused_row(refusal),
    }
}

pub(crate) fn verdict_row(v: Result<Verdict, Refusal>) -> Row
    ensures exact { result ≡ row_of (asked_verdict_says v) }
{
    match v {
        Ok(Verdict::Overload) => row_of(OVERLOAD, 0, 0, 0, 0),
        Ok(
            Verdict::Fail {
                interval,
                blocking,
                demand,
                pairs,
            },
        ) => row_of(FAIL, interval.0, blocking.0, demand.0, pairs),
        Ok(Verdict::Pass { pairs }) => row_of(PASS, pairs, 0, 0, 0),
        Err(refusal) => refused_row(refusal),
    }
}

pub(crate) fn assign_row(a: Result<Assign, Refusal>) -> Row
    ensures exact { result ≡ row_of (asked_assign_says a) }
{
    match a {
        Ok(Some(set)) => row_of(TAKERS, set, 0, 0, 0),
        Ok(None) => row_of(NOBODY, 0, 0, 0, 0),
        Err(refusal) => refused_row(refusal),
    }
}

pub(crate) fn outcome_row(o: Result<Outcome, Refusal>) -> Row
    ensures exact { result ≡ row_of (asked_outcome_says o) }
{
    match o {
        Ok(Outcome::Miss { day, place }) => row_at(MISS, day.0, place),
        Ok(Outcome::Clean { work, moving, idle }) => row_of(CLEAN, work.0, moving.0, idle.0, 0),
        Err(refusal) => refused_row(refusal),
    }
}

pub(crate) fn limit_row(asked: Result<Limit, Refusal>) -> Row
    ensures exact { result ≡ limit_row asked }
{
    match asked {
        Ok(Some(value)) => row_of(LIMIT, value, 0, 0, 0),
        Ok(None) => row_of(NO_LIMIT, 0, 0, 0, 0),
        Err(refusal) => refused_row(refusal),
    }
}

pub(crate) fn stinted_row(s: Result<usize, Refusal>) -> Row
    ensures exact { result ≡ stinted_row s }
{
    match s {
        Ok(stints) => Row {
            kind: STINTS,
            first: stints as u64,
            second: 0,
            third: 0,
            fourth: 0,
        },
        Err(refusal) => refused_row(refusal),
    }
}

pub(crate) fn missing_row(m: Result<Missing, Refusal>) -> Row
    ensures exact { result ≡ missing_row m }
{
    match m {
        Ok(Missing::Passes) => row_of(NONE_PASSES, 0, 0, 0, 0),
        Ok(Missing::Never) => row_of(NONE_MISSES, 0, 0, 0, 0),
        Ok(Missing::NoneFound) => row_of(NONE_FOUND, 0, 0, 0, 0),
        Ok(Missing::TooMany) => row_of(LIST_TOO_LONG, 0, 0, 0, 0),
        Ok(Missing::Found { run, .. }) => row_of(LIST_MISSES, run.0, 0, 0, 0),
        Err(refusal) => refused_row(refusal),
    }
}

pub(crate) fn date_row(w: Result<Date, Refusal>) -> Row
    ensures exact { result ≡ date_row w }
{
    match w {
        Ok(d) => row_of(DATE, d.year, d.month, d.day, 0),
        Err(refusal) => refused_row(refusal),
    }
}

pub(crate) fn day_row(w: Result<Day, Refusal>) -> Row
    ensures exact { result ≡ day_row w }
{
    match w {
        Ok(day) => row_of(DAY, day.0, 0, 0, 0),
        Err(refusal) => refused_row(refusal),
    }
}

// The kind is returned, and the numbers go to the first four places. With fewer places lent nothing is written.
#[tactic(auto, unfolding(crate::specs::Told::kind_told, crate::specs::Told::places_told))]
pub(crate) fn tell(row: Row, places: &mut [u64]) -> u32
    ensures exact { result ≡ kind_told row places.old }
    ensures places { places.new ≡ places_told row places.old }
{
    if places.len() < 4 {
        return NO_ROOM;
    }
    places[..4].copy_from_slice(&[row.first, row.second, row.third, row.fourth]);
    row.kind
}

// The text of a written page, which is shorter than a page.
pub(crate) fn tell_text(written: Page, page: &mut [u8]) -> usize
    ensures exact { result ≡ length_told (text_of written) page.old }
    ensures page { page.new ≡ page_told (text_of written) page.old }
{
    put_text(&written.bytes[..written.len], page)
}
