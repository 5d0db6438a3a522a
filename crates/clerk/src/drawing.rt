// `bars [FILE]`: the run of the plan in a file as bars: the days, a row for each string, what the marks mean, what was shortened or left
// out.
use super::commands::Command;
use super::plans::open_plan;
use super::say;
use doors::Stop;
use rules::PlanFile;

// So many columns are drawn at most.
const COLUMNS: usize = 70;

pub(crate) fn draw(rt: &HostRuntime, command: Command) -> Result<(), Stop> {
    let PlanFile { plan, releases } = open_plan(rt, command, b"bars [FILE]")?;
    let mut ended = say::page(rt, bars::head_shown(plan, releases));
    for place in 1..=plan.n {
        ended = say::more(rt, ended, bars::row_shown(plan, releases, place));
    }
    ended = say::more(rt, ended, lines::marks_line());
    // which idle days share a column
    for column in 1..=COLUMNS {
        ended = say::more(rt, ended, bars::idle_shown(plan, releases, column));
    }
    say::more(rt, ended, bars::cut_shown(plan, releases))
}
