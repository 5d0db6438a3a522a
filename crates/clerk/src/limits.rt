// `slack [FILE]`: how far the plan in a file can be changed: its verdict, then each string, every number beside its limit.
use super::commands::Command;
use super::plans::open_plan;
use super::say;
use doors::Stop;

pub(crate) fn show_slack(rt: &HostRuntime, command: Command) -> Result<(), Stop> {
    let plan = open_plan(rt, command, b"slack [FILE]")?.plan;
    let mut ended = say::page(rt, lines::verdict_written(verdict::verdict(plan)));
    for place in 1..=plan.n {
        ended = say::more(rt, ended, slack::limits_shown(plan, place));
    }
    ended
}
