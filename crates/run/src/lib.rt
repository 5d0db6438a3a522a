// The run: what the bank does under a plan and a list of releases, how the run ends, and its stints. Its days are those of the page, one by
// one; the code goes from event to event.
#![tactic(auto)]

mod change; // change.rt: step 3, what is paid
mod release; // release.rt: step 2
mod day; // day.rt: steps 3 to 5
mod tally; // tally.rt: the days by kind
mod book; // book.rt: the stints
mod walk; // walk.rt: from event to event
mod numbers; // numbers.rt: a stint read back

ghost use Rattle.std.specs.Prelude.{◌≡◌, length};
ghost use Rattle.rules.specs.Release.{releases_of};
ghost use Rattle.rules.specs.Refusal.{run_answer};
ghost use Rattle.rules.specs.Stints.{stints_answer, stints_listed};
ghost use Rattle.laws.proofs.Releases.{LawfulRun};
ghost use Rattle.run.specs.inner.Walk.{Ends};

use faults::{Fault, Refusal};
pub use numbers::stint_at;
use rules::{Outcome, Plan, Releases};
use walk::{Walked, walk};

// How the run ends under a plan and a list of releases; a plan or a list that is not lawful is refused.
#[tactic(auto, unfolding(rules::specs::Refusal::run_answer))]
pub fn run(p: Plan, rs: Releases) -> Result<Outcome, Refusal>
    ensures exact { result ≡ run_answer p rs }
{
    bounds::run_check(p, rs)?;
    Ok(walk_alone(p, &rs).outcome)
}

// The run with no list to write its stints into.
fn walk_alone(p: Plan, rs: &Releases) -> Walked
    requires { LawfulRun p rs.now }
    ensures exact { Ends p (releases_of rs.now) result }
{
    let mut nowhere = [0u32; 1];
    walk(p, rs, &mut nowhere)
}

// The stints of the run under a plan and a list of releases, five numbers each, at the front of the lent list. They are counted first, so
// that nothing is written where they do not fit.
#[tactic(auto, unfolding(rules::specs::Stints::stints_check, rules::specs::Stints::stints_answer, rules::specs::Stints::stints_listed))]
pub fn stints(p: Plan, rs: Releases, list: &mut [u32]) -> Result<usize, Refusal>
    ensures exact { result ≡ stints_answer p rs (length list.old) }
    ensures stored { list.new ≡ stints_listed p rs list.old }
{
    bounds::run_check(p, rs)?;
    let stints = walk_alone(p, &rs).stints;
    if list.len() < 5 * stints {
        return Err(Refusal {
            fault: Fault::NoRoom,
            at: 0,
        });
    }
    walk(p, &rs, list);
    Ok(stints)
}
