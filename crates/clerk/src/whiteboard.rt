// Permission sets. `assign [FILE]`: the plan in a file with the set that the search finds, as a plan file. `sets [FILE]`: every set in the
// search's order, with its verdict.
use super::commands::{Command, first};
use super::files::read_by;
use super::outside::write;
use super::plans::{name_in, open_plan};
use super::say;
use doors::Stop;

pub(crate) fn assign(rt: &HostRuntime, command: Command) -> Result<(), Stop> {
    let mut room = [0u8; 65537];
    let n = read_by(rt, name_in(rt, command, b"assign [FILE]")?, &mut room)?;
    let mut page = [0u8; 65536];
    match assigning::assign(&room[..n], &mut page, 0) {
        Ok(Some(length)) => write(rt, first(&page, length)),
        Ok(None) => Err(say::nothing(rt, b"none: no set passes")),
        Err(refusal) => Err(say::refused(rt, refusal)),
    }
}

// Ten strings have 1,024 sets; behind the last one there is nothing to write. A set may take its time: none is judged for a reader who has
// gone.
pub(crate) fn list_sets(rt: &HostRuntime, command: Command) -> Result<(), Stop> {
    let plan = open_plan(rt, command, b"sets [FILE]")?.plan;
    let found = verdict::search(plan).map_err(|refusal| say::refused(rt, refusal))?;
    let mut ended = Ok(());
    for k in 1..=1024 {
        let line = sets::set_shown(plan, found, k);
        if line.len == 0 {
            break;
        }
        ended = say::more(rt, ended, line);
        if ended == Err(Stop::Gone) {
            break;
        }
    }
    ended
}
