// `show [FILE]`: the plan in a file in decimal words: the plan, each string with its E, H and the load, each release.
use super::commands::Command;
use super::plans::open_plan;
use super::say;
use doors::Stop;
use rules::PlanFile;

pub(crate) fn show(rt: &HostRuntime, command: Command) -> Result<(), Stop> {
    let PlanFile { plan, releases } = open_plan(rt, command, b"show [FILE]")?;
    let mut ended = say::page(rt, showing::plan_shown(plan));
    for place in 1..=plan.n {
        ended = say::more(rt, ended, showing::string_shown(plan, place));
    }
    ended = say::more(rt, ended, showing::load_shown(plan));
    for place in 1..=releases.count {
        ended = say::more(rt, ended, showing::release_shown(releases, place));
    }
    ended
}
