// `run [FILE]`: the run of the plan in a file, a line for each stint, and then how it ends, as the desk writes it.
use super::commands::Command;
use super::plans::open_plan;
use super::say;
use doors::Stop;
use rules::PlanFile;

pub(crate) fn show_run(rt: &HostRuntime, command: Command) -> Result<(), Stop> {
    let PlanFile { plan, releases } = open_plan(rt, command, b"run [FILE]")?;
    // a list of 15,005 numbers is never too short, so that nothing is refused here
    let mut list = [0u32; 15005];
    let stints = run::stints(plan, releases, &mut list).map_err(|refusal| say::refused(
        rt, refusal,
    ))?;
    let mut ended = Ok(());
    for k in 0..stints {
        ended = say::more(rt, ended, lines::stint_line(run::stint_at(&list, k)));
    }
    say::more(rt, ended, lines::run_written(run::run(plan, releases)))
}
