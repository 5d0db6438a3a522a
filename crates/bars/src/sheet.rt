// A run as the bars need it: its stints in a lent list, how many days it goes, the day on which it ends, and its columns.
ghost use Rattle.std.specs.Prelude.{◌≡◌, length};
ghost use Rattle.faults.specs.Checks.{Lawful};
ghost use Rattle.rules.specs.Release.{releases_of};
ghost use Rattle.rules.specs.Run.{run_of};
ghost use Rattle.rules.specs.Refusal.{run_check};
ghost use Rattle.visits.specs.inner.Own.{stints_in, StintsEnd};
ghost use Rattle.rules.specs.Stints.{run_stints};
ghost use Rattle.bars.specs.inner.Drawing.{SheetOf, SheetGiven};

use super::columns::{Drawn, drawn_from};
use faults::Refusal;
use rules::{Outcome, Plan, Releases};

// How many stints stand in the list. A run that misses ends on the day of the miss, and the bank has done nothing on it.
#[derive(Clone, Copy)]
pub(crate) struct Sheet {
    pub(crate) stints: usize,
    pub(crate) days: u32,
    pub(crate) end: u32,
    pub(crate) drawn: Drawn,
}

// The sheet of a lawful run that ended so.
fn ended(p: Plan, rs: Releases, list: &[u32], stints: usize, outcome: Outcome) -> Sheet
    requires rs_value { run_check p rs ≡ Lawful }
    requires stints_value { stints_in list.now stints ≡ run_stints p (releases_of rs) }
    requires stints_end { StintsEnd list.now stints }
    requires outcome_value { outcome ≡ run_of p (releases_of rs) }
    ensures told { SheetOf p (releases_of rs) result list.now }
{
    match outcome {
        Outcome::Miss { day, place: _ } => Sheet {
            stints,
            days: day.0,
            end: day.0,
            drawn: drawn_from(list, stints, Some(day.0)),
        },
        Outcome::Clean {
            work: _,
            moving: _,
            idle: _,
        } => Sheet {
            stints,
            days: p.run.0,
            end: p.run.0 - 1,
            drawn: drawn_from(list, stints, None),
        },
    }
}

// A list of 15,005 numbers is never too short, so that what is refused here is the plan or a release.
pub(crate) fn listed(p: Plan, rs: Releases, list: &mut [u32]) -> Result<Sheet, Refusal>
    requires { length list.old ≡ 15005 }
    ensures told { SheetGiven p rs result list.new }
{
    let stints = run::stints(p, rs, list)?;
    let outcome = run::run(p, rs)?;
    Ok(ended(p, rs, list, stints, outcome))
}
