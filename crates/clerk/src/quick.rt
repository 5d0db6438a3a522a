// `quick [FILE]`: the quick verdict on the plan in a file, as the desk writes its first line, with its own count of pairs.
use super::commands::Command;
use super::plans::open_plan;
use super::say;
use doors::Stop;

pub(crate) fn quick_verdict(rt: &HostRuntime, command: Command) -> Result<(), Stop> {
    let plan = open_plan(rt, command, b"quick [FILE]")?.plan;
    say::page(rt, lines::verdict_written(verdict::quick(plan)))
}
