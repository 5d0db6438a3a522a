// Standard input: the start date, and then the diary, line by line.
ghost use Rattle.std.specs.Prelude.{◌≡◌, cond, ◌+◌, ◌≤◌, Ok, eqb, ltb, length, drop, position};
ghost use Rattle.register.specs.inner.Fields.{bytes_ahead};
ghost use Rattle.rules.specs.Text.{lines_of};
ghost use Rattle.boards.specs.Input.{input_reading, entered_in};
ghost use Rattle.boards.specs.inner.Walk.{start_of, within_of, noted_of, noting_of};

use super::{CrewInput, Diary, NO_TEST, Test};
use calendar::{date_read, edition_read, fits, yearly_read};
use days::{Day, Length};
use faults::{Fault, Refusal};

const LAST_DAY: u32 = 146_096;

// A line of the input that is not right.
const NO_DATE: Refusal = Refusal {
    fault: Fault::NoSuchDate,
    at: 0,
};

// Where the first 0a of a text stands.
fn first_end(text: &[u8]) -> Option<usize>
    ensures exact { result ≡ position (λ b. eqb b 0x0a) text.now }
{
    text.iter().position(|b| *b == b'\n')
}

// Where the 0a of the line stands that starts at `from`, or the text's end.
fn line_end(text: &[u8], from: usize) -> usize
    requires { from ≤ length text.now }
    ensures exact { result ≡ from + bytes_ahead 0x0a (drop from text.now) }
{
    match first_end(&text[from..]) {
        Some(i) => from + i,
        None => text.len(),
    }
}

// Where the next line starts.
fn behind(end: usize, length: usize) -> usize
    ensures exact { result ≡ cond (ltb end length) (end + 1) end }
{
    if end < length { end + 1 } else { end }
}

// A day from which the run's days are in the calendar, the day behind its last among them.
#[tactic(auto, unfolding(crate::specs::inner::Walk::within_of, days::specs::Days::later_of))]
fn within(day: Day, run: Length) -> Result<Day, Refusal>
    ensures exact { result ≡ within_of run.0 (Ok day) }
{
    match day.plus(run) {
        Some(last) if last.0 <= LAST_DAY => Ok(day),
        _ => Err(NO_DATE),
    }
}

// The day of the start.
fn start_at(line: &[u8], ended: bool, run: Length) -> Result<Day, Refusal>
    ensures exact { result ≡ start_of run.0 (record { bytes = line.now; ended = ended }) }
{
    if !ended {
        return Err(NO_DATE);
    }
    within(date_read(line)?.day_number()?, run)
}

// A line of the diary: its form, then 11 for its edition, then 10 for its date, its end and its place in the diary.
fn test_at(line: &[u8], ended: bool, place: usize) -> Result<Test, Refusal>
    ensures exact { result ≡ noted_of place (record { bytes = line.now; ended = ended }) }
{
    if !fits(b"00-00 0", line) {
        return Err(NO_DATE);
    }
    let edition = edition_read(&line[6..])?;
    let date = yearly_read(&line[..5])?;
    if !ended || 20 < place {
        return Err(NO_DATE);
    }
    Ok(Test {
        month: date.month,
        day: date.day,
        edition,
    })
}

// The diary: the lines from a place of the text on.
fn diary_in(text: &[u8], from: usize) -> Result<Diary, Refusal>
    requires { from ≤ length text.now }
    ensures exact { result ≡ noting_of (lines_of (drop from text.now)) }
{
    let mut diary = Diary {
        count: 0,
        tests: [NO_TEST; 20],
    };
    let mut at = from;
    while at < text.len() {
        let end = line_end(text, at);
        let test = test_at(&text[at..end], end < text.len(), diary.count + 1)?;
        diary.tests[diary.count] = test;
        diary.count += 1;
        at = behind(end, text.len());
    }
    Ok(diary)
}

// What standard input says, for a run of so many days. The text is lent and keeps its bytes.
pub fn input_read(text: &[u8], run: Length) -> Result<CrewInput, Refusal>
    ensures exact { result ≡ entered_in (input_reading run.0 text.now) }
    ensures kept { text.exit.now ≡ text.entry.now }
{
    let end = line_end(text, 0);
    let start = start_at(&text[..end], end < text.len(), run)?;
    let diary = diary_in(text, behind(end, text.len()))?;
    Ok(CrewInput { start, diary })
}
