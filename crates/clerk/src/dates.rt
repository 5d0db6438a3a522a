// `date TEXT`, `day NUMBER`, `yearly MM-DD EDITION FIRST LAST`: what the calendar answers, a line for each day.
use super::commands::{Command, first as start_of};
use super::say;
use calendar::{YearlyDate, date_read, day_read, edition_read, yearly, yearly_read};
use days::Day;
use doors::Stop;
use faults::Refusal;
use lines::Page;

// 31 December 2399, the last day of the calendar.
const LAST: Day = Day(146096);

// A date's text has so many bytes.
const DATE_BYTES: usize = 10;

// The line would say by itself that there is no such date; how the command ended is asked for too.
pub(crate) fn date(rt: &HostRuntime, command: Command) -> Result<(), Stop> {
    if command.count() != 2 {
        return Err(say::complain(rt, b"date YYYY-MM-DD"));
    }
    let text = command.word(1);
    date_read(text).map_err(|refusal| say::refused(rt, refusal))?;
    say::page(rt, lines::date_line(text))
}

pub(crate) fn day(rt: &HostRuntime, command: Command) -> Result<(), Stop> {
    if command.count() != 2 {
        return Err(say::complain(rt, b"day NUMBER"));
    }
    let day = day_read(command.word(1)).map_err(|refusal| say::refused(rt, refusal))?;
    say::page(rt, lines::day_line(day))
}

// What is asked for: a yearly test by its edition, from one day to another.
#[derive(Clone, Copy)]
struct Asked {
    on: YearlyDate,
    edition: u32,
    first: Day,
    last: Day,
}

// The edition is looked at before any date.
fn asked_in(command: Command) -> Result<Asked, Refusal> {
    let edition = edition_read(command.word(2))?;
    let on = yearly_read(command.word(1))?;
    let first = date_read(command.word(3))?.day_number()?;
    let last = date_read(command.word(4))?.day_number()?;
    Ok(Asked {
        on,
        edition,
        first,
        last,
    })
}

pub(crate) fn yearly_days(rt: &HostRuntime, command: Command) -> Result<(), Stop> {
    if command.count() != 5 {
        return Err(say::complain(rt, b"yearly MM-DD EDITION FIRST LAST"));
    }
    let asked = asked_in(command).map_err(|refusal| say::refused(rt, refusal))?;
    // the calendar has 400 years, so that many places are enough
    let mut list = [0u32; 400];
    let count = yearly(asked.on, asked.edition, asked.first, asked.last, &mut list).map_err(
        |refusal| say::refused(rt, refusal),
    )?;
    if count == 0 {
        return none(rt, asked);
    }
    let mut ended = Ok(());
    for day in list.iter().take(count) {
        ended = say::more(rt, ended, lines::day_line(Day(*day)));
    }
    ended
}

// The test falls on no day from the first to the last: why, or when it falls next.
fn none(rt: &HostRuntime, asked: Asked) -> Result<(), Stop> {
    if asked.last < asked.first {
        say::empty(rt, b"none: the first day is after the last", b"");
        return Ok(());
    }
    let mut list = [0u32; 400];
    let count = yearly(asked.on, asked.edition, asked.last, LAST, &mut list).map_err(
        |refusal| say::refused(rt, refusal),
    )?;
    if count == 0 {
        say::empty(rt, b"none; there is none up to 2399-12-31", b"");
    } else {
        say_next(rt, lines::day_line(Day(list[0])));
    }
    Ok(())
}

// The line of a day begins with its date.
fn say_next(rt: &HostRuntime, page: Page) {
    say::empty(
        rt,
        b"none; the next is ",
        start_of(&page.bytes[..page.len], DATE_BYTES),
    );
}
