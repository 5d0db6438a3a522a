// `same FILE FILE`: whether two plan files hold the same strings in another order, and which string of the one is which of the other.
use super::commands::Command;
use super::plans::open_by;
use super::say;
use doors::Stop;
use matching::Matching;
use rules::Plan;

pub(crate) fn same_strings(rt: &HostRuntime, command: Command) -> Result<(), Stop> {
    if command.count() != 3 {
        return Err(say::complain(rt, b"same FILE FILE"));
    }
    let one = command.word(1);
    let other = command.word(2);
    if one == b"-".as_slice() && other == b"-".as_slice() {
        return Err(say::complain(rt, b"same FILE FILE: one of the two at most is -"));
    }
    let matched = matching::same_strings(open_one(rt, one)?, open_one(rt, other)?);
    say::page(rt, matching::matched_line(matched))?;
    match matched.matching {
        Matching::Same { .. } => Ok(()),
        Matching::Alone { .. } | Matching::Counts { .. } => Err(Stop::Refused),
    }
}

// The first of the two that is refused, or cannot be read, ends it. Of two files a refusal does not say which; what cannot be read has been
// named.
fn open_one(rt: &HostRuntime, name: &[u8]) -> Result<Plan, Stop> {
    match open_by(rt, name) {
        Ok(opened) => Ok(opened.plan),
        Err(Stop::Refused) => Err(say::refused_file(rt, name)),
        Err(stop) => Err(stop),
    }
}
