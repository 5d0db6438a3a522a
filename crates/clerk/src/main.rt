// The clerk: `clerk WORD ..`, for all that is done with plan files and dates. One start, one answer on standard output; what cannot be
// answered is named by one line on standard error.
#![tactic(auto)]

mod commands;
mod dates;
mod drawing;
mod each;
mod explain;
mod export;
mod files;
mod limits;
mod miss;
mod orders;
mod outside;
mod plans;
mod quick;
mod runs;
mod save;
mod say;
mod show;
mod turn;
mod visiting;
mod whiteboard;
mod words;

use commands::{Command, taken};
use doors::{Stop, status};
use each::each;
use outside::{asked_for_status, word_count};
use say::complain;
use std::process::ExitCode;
use words::answer;

// The command that stands in the words from the `from`-th on.
fn answer_from(rt: &HostRuntime, from: usize) -> Result<(), Stop> {
    if word_count(rt) <= from {
        return Err(complain(rt, b"no word; clerk help lists them"));
    }
    let mut room = [0u8; 8192];
    let n = taken(rt, from, &mut room);
    if n == 0 {
        return Err(complain(rt, b"a word is empty or too long"));
    }
    let command = Command { words: &room[..n] };
    if command.word(0) == b"each".as_slice() {
        each(rt, command)
    } else {
        answer(rt, command)
    }
}

// An answer that cannot be written is said once.
fn answer_and_say(rt: &HostRuntime, from: usize) -> Result<(), Stop> {
    let ended = answer_from(rt, from);
    if ended == Err(Stop::Unwritten) {
        return Err(complain(rt, b"the answer could not be written"));
    }
    ended
}

// Without that first word the program ends with 0 whatever it answered.
fn main(rt: HostRuntime) -> ExitCode {
    if asked_for_status(&rt) {
        return status(answer_and_say(&rt, 2));
    }
    let _ = answer_and_say(&rt, 1);
    ExitCode::SUCCESS
}
