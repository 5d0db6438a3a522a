// What the clerk writes: a refusal is an answer, on standard output; a complaint is one line on standard error. Where an answer
// stops short, the function says why.
use super::outside::write;
use days::Day;
use doors::{Stop, worse};
use faults::Refusal;
use lines::Page;
use std::io::Print;

pub(crate) const CLERK: &[u8] = b"clerk: ";

pub(crate) fn page(rt: &HostRuntime, page: Page) -> Result<(), Stop> {
    write(rt, &page.bytes[..page.len])
}

// A line behind others that ended so: it is tried whatever became of them.
pub(crate) fn more(rt: &HostRuntime, ended: Result<(), Stop>, line: Page) -> Result<(), Stop> {
    worse(ended, page(rt, line))
}

// The refusal's line.
pub(crate) fn refused(rt: &HostRuntime, refusal: Refusal) -> Stop {
    match page(rt, lines::written(Err(refusal))) {
        Ok(()) => Stop::Refused,
        Err(stop) => stop,
    }
}

// What is wrong, and about which word.
pub(crate) fn complain_of(rt: &HostRuntime, what: &[u8], word: &[u8], more: &[u8]) -> Stop {
    doors::complain(rt, CLERK, what, word, more)
}

pub(crate) fn complain(rt: &HostRuntime, what: &[u8]) -> Stop {
    complain_of(rt, what, b"", b"")
}

// Why nothing is written: there is no such plan file. Standard output stays empty, since the next program would read a reason as a plan.
pub(crate) fn nothing(rt: &HostRuntime, why: &[u8]) -> Stop {
    complain(rt, why);
    Stop::Refused
}

// Which file is refused, where there are several; its refusal has been written.
pub(crate) fn refused_file(rt: &HostRuntime, name: &[u8]) -> Stop {
    complain_of(rt, b"refused: ", name, b"");
    Stop::Refused
}

// Why the list of days is empty; that it is, is the answer.
pub(crate) fn empty(rt: &HostRuntime, why: &[u8], day: &[u8]) {
    complain_of(rt, why, day, b"");
}

// The run misses on that day: what was written ends with the day before.
pub(crate) fn up_to(rt: &HostRuntime, day: Day) {
    let stderr = rt.stderr();
    let _ = stderr.write_all(b"clerk: the run misses: visits up to day ");
    let _ = stderr.print(day.0);
    let _ = stderr.write_all(b"\n");
}
