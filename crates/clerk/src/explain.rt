// `why [FILE]`: the pair that the verdict on the plan in a file names, string by string; of a pass the tightest pair, of an overload the
// load. `demand [FILE]`: the demand of the plan in a file, interval by interval, and where the rule is broken.
use super::commands::Command;
use super::plans::open_plan;
use super::say;
use days::Length;
use doors::Stop;
use rules::Plan;
use why::Subject;

pub(crate) fn why(rt: &HostRuntime, command: Command) -> Result<(), Stop> {
    let plan = open_plan(rt, command, b"why [FILE]")?.plan;
    match why::named(plan) {
        Ok(Subject::Overload) => say_overload(rt, plan),
        Ok(Subject::At { interval, blocking }) => say_pair(rt, plan, interval, blocking),
        Err(refusal) => Err(say::refused(rt, refusal)),
    }
}

fn say_pair(rt: &HostRuntime, plan: Plan, interval: Length, blocking: Length) -> Result<(), Stop> {
    let mut ended = say::page(rt, lines::pair_line(interval, blocking));
    ended = say::more(rt, ended, why::blocker_shown(plan, interval, blocking));
    ended = say::more(rt, ended, lines::blocking_line(blocking));
    ended = say_shares(rt, ended, plan, interval, blocking);
    say::more(rt, ended, why::demand_shown(plan, interval, blocking))
}

// By place, behind lines that ended so.
fn say_shares(
    rt: &HostRuntime,
    before: Result<(), Stop>,
    plan: Plan,
    interval: Length,
    blocking: Length,
) -> Result<(), Stop> {
    let mut ended = before;
    for place in 1..=plan.n {
        ended = say::more(rt, ended, why::share_shown(plan, interval, blocking, place));
    }
    ended
}

// Over H days with no blocking each string asks for its part of the load.
fn say_overload(rt: &HostRuntime, plan: Plan) -> Result<(), Stop> {
    let found = verdict::figures(plan).map_err(|refusal| say::refused(rt, refusal))?;
    let mut ended = say::page(rt, lines::multiple_line(found.multiple));
    ended = say_shares(rt, ended, plan, Length(found.multiple), Length(0));
    say::more(rt, ended, lines::over_line(found.load, found.multiple))
}

pub(crate) fn demand(rt: &HostRuntime, command: Command) -> Result<(), Stop> {
    let plan = open_plan(rt, command, b"demand [FILE]")?.plan;
    let last = why::last_interval(plan);
    // the intervals at which some demand grows, and those that break the rule, one after the other
    let mut ended = Ok(());
    for l in 1..=last {
        ended = say::more(rt, ended, why::stair_shown(plan, Length(l)));
    }
    for l in 1..=last {
        ended = say::more(rt, ended, why::stretch_shown(plan, Length(l)));
    }
    say::more(rt, ended, why::nowhere_shown(plan))
}
