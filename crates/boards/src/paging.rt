// Pages of a board, from the stints of a run in a lent list: five numbers each.
ghost use Rattle.std.specs.Prelude.{◌≡◌, length};
ghost use Rattle.lines.specs.Pages.{length_told, page_told};
ghost use Rattle.boards.specs.Paging.{page_filled, page_after};
ghost use Rattle.boards.specs.Whole.{end_text};

use super::daily::{date_on, head, put_days, put_line};
use super::{Board, Filled};
use days::Day;
use lines::missed_line;
use rules::Outcome;
use run::stint_at;

const LAST_DAY: u32 = 146_096;

const NOTHING: Filled = Filled { days: 0, length: 0 };

// The days of the board from a day of its run on, whole days, as many as fit the page. The list holds the run's stints.
pub fn board_page(b: Board, list: &[u32], from: Day, page: &mut [u8]) -> Filled
    ensures exact { result ≡ page_filled b list.now from.0 (length page.old) }
    ensures page { page.new ≡ page_after b list.now from.0 page.old }
    ensures kept { list.exit.now ≡ list.entry.now }
{
    let start = b.start.0;
    let stints = b.stints;
    let diary = b.diary;
    if LAST_DAY < start {
        return NOTHING;
    }
    if LAST_DAY - start < from.0 {
        return NOTHING;
    }
    let mut day = start + from.0;
    let mut skip = from.0;
    let mut at: usize = 0;
    let mut days: usize = 0;
    let mut i: usize = 0;
    while i < stints {
        if list.len() / 5 <= i {
            return Filled { days, length: at };
        }
        let stint = stint_at(list, i);
        let long = stint.length.0;
        let used = stint.used;
        let left = long.saturating_sub(skip);
        let filled = put_days(page, at, day, left.min(LAST_DAY + 1 - day), used, diary);
        at += filled.length;
        days += filled.days;
        if filled.days < left as usize {
            return Filled { days, length: at };
        }
        day += left;
        skip = skip.saturating_sub(long);
        i += 1;
    }
    Filled { days, length: at }
}

// The line of a miss at the head of the page, where its day is in the calendar.
fn put_miss(start: u32, day: Day, place: usize, page: &mut [u8]) -> usize
    ensures exact { result ≡ length_told (end_text start (Outcome.Miss day place)) page.old }
    ensures page { page.new ≡ page_told (end_text start (Outcome.Miss day place)) page.old }
{
    if LAST_DAY < start {
        return 0;
    }
    if LAST_DAY - start < day.0 {
        return 0;
    }
    let on = start + day.0;
    let line = missed_line(place);
    let len = line.len;
    let bytes = line.bytes;
    if page.len() < 15 + len {
        return 0;
    }
    put_line(page, 0, head(date_on(on), on), &bytes[..len])
}

// What stands behind the last day: the line of a miss, at the head of the page. Nothing is written where there is none, or no room for it.
pub fn board_end(b: Board, page: &mut [u8]) -> usize
    ensures exact { result ≡ length_told (end_text b.start.0 b.outcome) page.old }
    ensures page { page.new ≡ page_told (end_text b.start.0 b.outcome) page.old }
{
    let start = b.start.0;
    let outcome = b.outcome;
    match outcome {
        Outcome::Miss { day, place } => put_miss(start, day, place, page),
        Outcome::Clean { .. } => 0,
    }
}
