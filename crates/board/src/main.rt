// The crew's board: `board FILE` reads a plan from FILE, and a start date and a diary from standard input, and writes the board. What
// cannot be read is named on standard error and gets no board.
#![tactic(auto)]

mod outside;

ghost use Rattle.std.specs.Prelude.{◌≤◌};

use boards::Board;
use days::Day;
use doors::{Stop, complain, status, unread};
use faults::Fault;
use lines::Page;
use outside::{asked_for_status, fill, fill_by, word_count, write};
use std::process::ExitCode;
use std::rt::Env;

const BOARD: &[u8] = b"board: ";

// The last day of the calendar.
const LAST: u32 = 146_096;

fn write_page(rt: &HostRuntime, page: Page) -> Result<(), Stop> {
    write(rt, &page.bytes[..page.len])
}

fn refused(rt: &HostRuntime, fault: Fault) -> Stop {
    match write_page(rt, lines::number_line(fault)) {
        Ok(()) => Stop::Refused,
        Err(stop) => stop,
    }
}

// Page after page, until one has no days; then what stands behind the last day.
fn write_board(rt: &HostRuntime, board: Board, list: &[u32]) -> Result<(), Stop> {
    let mut from: u32 = 0;
    while from <= LAST {
        let mut page = [0u8; 65536];
        let filled = boards::board_page(board, list, Day(from), &mut page);
        write(rt, &page[..filled.length])?;
        if filled.days == 0 {
            break;
        }
        from += filled.days as u32;
    }
    let mut page = [0u8; 600];
    let n = boards::board_end(board, &mut page);
    write(rt, &page[..n])
}

// The input, and then the board of a plan's text. Of a longer input the first 4096 bytes decide (boards/proofs/LongInput.antt).
fn answer_plan(rt: &HostRuntime, plan: &[u8]) -> Result<(), Stop> {
    let mut input = [0u8; 4096];
    let n = fill(&mut rt.stdin(), &mut input).map_err(|e| unread(
        rt,
        BOARD,
        b"standard input",
        &e,
    ))?;
    let mut list = [0u32; 15005];
    match boards::board_read(plan, &input[..n], &mut list) {
        Ok(board) => write_board(rt, board, &list),
        Err(refusal) => Err(refused(rt, refusal.fault)),
    }
}

// One byte more than the longest text is enough to refuse a longer one.
fn answer_file(rt: &HostRuntime, name: &[u8]) -> Result<(), Stop> {
    let mut text = [0u8; 65537];
    let n = fill_by(rt, name, &mut text).map_err(|e| unread(rt, BOARD, name, &e))?;
    answer_plan(rt, &text[..n])
}

// The word at a place names the plan file, and it is the last.
fn answer_named(rt: &HostRuntime, i: usize) -> Result<(), Stop>
    requires { i ≤ 2 }
{
    if word_count(rt) != i + 1 {
        return Err(complain(
            rt,
            BOARD,
            b"one plan file is wanted; board --help says more",
            b"",
            b"",
        ));
    }
    let mut word = [0u8; 4096];
    let n = rt.arg(i, &mut word).unwrap_or(0);
    if n == 0 {
        return Err(complain(rt, BOARD, b"a file's name is empty or too long", b"", b""));
    }
    answer_file(rt, &word[..n])
}

// A board that cannot be written is said once.
fn answer_and_say(rt: &HostRuntime, i: usize) -> Result<(), Stop>
    requires { i ≤ 2 }
{
    let ended = answer_named(rt, i);
    if ended == Err(Stop::Unwritten) {
        complain(rt, BOARD, b"the board could not be written", b"", b"");
    }
    ended
}

// Without that first word the program ends with 0 whatever it answered.
fn main(rt: HostRuntime) -> ExitCode {
    if asked_for_status(&rt) {
        return status(answer_and_say(&rt, 2));
    }
    let _ = answer_and_say(&rt, 1);
    ExitCode::SUCCESS
}
