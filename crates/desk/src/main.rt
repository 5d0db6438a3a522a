// The desk: `desk FILE` writes the lines for a plan file; with no FILE, and for a FILE that is `-`, it reads standard input. With two or
// more FILEs each answer has the file's name on a line above it. What cannot be read is named on standard error and gets no answer.
#![tactic(auto)]

mod outside;

use doors::{Stop, complain, status, unread, worse};
use lines::Page;
use outside::{asked_for_status, fill, fill_by, word_count, write};
use std::process::ExitCode;
use std::rt::Env;

const DESK: &[u8] = b"desk: ";

// One byte more than the longest text is enough to refuse a longer one.
const ROOM: usize = 65537;

fn write_page(rt: &HostRuntime, page: Page) -> Result<(), Stop> {
    write(rt, &page.bytes[..page.len])
}

// The answer for a text, under its name where that is asked.
fn answer(rt: &HostRuntime, text: &[u8], title: Option<&[u8]>) -> Result<(), Stop> {
    if let Some(name) = title {
        write(rt, name)?;
        write(rt, b"\n")?;
    }
    let answer = answers::answer(text);
    write_page(rt, lines::written(answer))?;
    answer.map(|_| ()).map_err(|_| Stop::Refused)
}

fn answer_input(rt: &HostRuntime, several: bool) -> Result<(), Stop> {
    let mut room = [0u8; ROOM];
    match fill(&mut rt.stdin(), &mut room) {
        Ok(n) => answer(rt, &room[..n], several.then_some(b"-")),
        Err(e) => Err(unread(rt, DESK, b"standard input", &e)),
    }
}

fn answer_file(rt: &HostRuntime, name: &[u8], several: bool) -> Result<(), Stop> {
    let mut room = [0u8; ROOM];
    match fill_by(rt, name, &mut room) {
        Ok(n) => answer(rt, &room[..n], several.then_some(name)),
        Err(e) => Err(unread(rt, DESK, name, &e)),
    }
}

// What the i-th word names, with that name above the answer where there are several.
fn answer_named(rt: &HostRuntime, i: usize, several: bool) -> Result<(), Stop> {
    let mut word = [0u8; 4096];
    let n = rt.arg(i, &mut word).unwrap_or(0);
    let name = &word[..n];
    if n == 0 {
        Err(complain(rt, DESK, b"a file's name is empty or too long", b"", b""))
    } else if name == b"-".as_slice() {
        answer_input(rt, several)
    } else {
        answer_file(rt, name, several)
    }
}

// The words from the `from`-th on, up to the first answer that cannot be written.
fn answer_all(rt: &HostRuntime, from: usize) -> Result<(), Stop> {
    let count = word_count(rt);
    if count <= from {
        return answer_input(rt, false);
    }
    let several = 1 < count - from;
    let mut ended = Ok(());
    for i in from..count {
        ended = worse(ended, answer_named(rt, i, several));
        if ended >= Err(Stop::Unwritten) {
            return ended;
        }
    }
    ended
}

// An answer that cannot be written is said once.
fn answer_and_say(rt: &HostRuntime, from: usize) -> Result<(), Stop> {
    let ended = answer_all(rt, from);
    if ended == Err(Stop::Unwritten) {
        complain(rt, DESK, b"the answer could not be written", b"", b"");
    }
    ended
}

// Without that first word the program ends with 0 whatever it answered.
fn main(rt: HostRuntime) -> ExitCode {
    if asked_for_status(&rt) {
        return status(answer_and_say(&rt, 2));
    }
    let _ = answer_and_say(&rt, 1);
    ExitCode::SUCCESS
}
