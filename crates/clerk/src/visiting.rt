// `visits [FILE]`: the visits of our own run of the plan in a file. `check-visits FILE VISITS`: whether a contractor's list is accepted for
// it.
use super::commands::Command;
use super::files::read_by;
use super::outside::write;
use super::plans::open_plan;
use super::say;
use doors::Stop;
use rules::{Outcome, PlanFile};

pub(crate) fn own_visits(rt: &HostRuntime, command: Command) -> Result<(), Stop> {
    let PlanFile { plan, releases } = open_plan(rt, command, b"visits [FILE]")?;
    let own = visits::own_visits(plan, releases).map_err(|refusal| say::refused(rt, refusal))?;
    let mut ended = Ok(());
    for visit in own.list.iter().take(own.count) {
        let line = lines::visit_line(visit.release, visit.first, visit.length);
        ended = say::more(rt, ended, line);
    }
    // a run that misses ends there, and its visits with it
    if let Ok(Outcome::Miss { day, .. }) = run::run(plan, releases) {
        say::up_to(rt, day);
    }
    ended
}

// One byte more than the longest text is enough to refuse a longer one, of either file.
pub(crate) fn check_visits(rt: &HostRuntime, command: Command) -> Result<(), Stop> {
    if command.count() != 3 {
        return Err(say::complain(rt, b"check-visits FILE VISITS"));
    }
    let plan = command.word(1);
    let list = command.word(2);
    if plan == b"-".as_slice() && list == b"-".as_slice() {
        return Err(say::complain(rt, b"check-visits FILE VISITS: one of the two at most is -"));
    }
    let mut room = [0u8; 65537];
    let mut beside = [0u8; 65537];
    let n = read_by(rt, plan, &mut room)?;
    let m = read_by(rt, list, &mut beside)?;
    match visits::check_visit_files(&room[..n], &beside[..m]) {
        Ok(()) => write(rt, b"accepted\n"),
        Err(refusal) => Err(say::refused(rt, refusal)),
    }
}
