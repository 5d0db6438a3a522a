// Whether a plan that does not pass can miss a deadline: that it cannot, where the payable plan passes sharply; else releases over which it
// does, the theorem's list where the sharp rule with free moving breaks, and lists in which a taker pays.
#![tactic(auto)]

mod asking;
mod breaks;
mod free;
mod listing;
mod openings;
mod payable;
mod search;

ghost use Rattle.std.specs.Prelude.{◌≡◌};
ghost use Rattle.verdict.specs.inner.Asked.{Ready};
ghost use Rattle.tries.specs.Tries.{free_break, unfound, missing_of, missing_answer};

use asking::passes;
use bounds::plan_check;
use breaks::free_break;
use days::Length;
use faults::Refusal;
use listing::listed;
use payable::passes_payably;
use rules::{Plan, Releases};
use search::first_that_misses;

// What is found for a plan: that it passes, so that no list misses; or that it fails and yet none does; or that none of the lists tried
// does; or that none of them does, but there is one, of more than 1,000 releases; or releases over which a run of so many days misses.
#[derive(Clone, Copy)]
pub enum Missing {
    Passes,
    Never,
    NoneFound,
    TooMany,
    Found { run: Length, releases: Releases },
}

// Why no list is shown: where the sharp rule with free moving breaks there is one that misses, and it has more than 1,000 releases.
fn not_shown(p: Plan) -> Missing
    requires { Ready p }
    ensures { result ≡ unfound (free_break p) }
{
    match free_break(p) {
        Some(_) => Missing::TooMany,
        None => Missing::NoneFound,
    }
}

// What is found for a lawful plan. N is raised to the interval's end where that lies beyond it.
#[tactic(auto, unfolding(crate::specs::Tries::missing_of))]
fn missing_of(p: Plan) -> Missing
    requires { Ready p }
    ensures { result ≡ missing_of p }
{
    if passes(p) {
        return Missing::Passes;
    }
    if passes_payably(p) {
        return Missing::Never;
    }
    match first_that_misses(p) {
        Some(found) => Missing::Found {
            run: Length(p.run.0.max(found.opening.lead + found.l)),
            releases: listed(p, found.opening, found.l),
        },
        None => not_shown(p),
    }
}

// Whether a lawful plan can miss a deadline, and over which releases, where some are found.
#[tactic(auto, unfolding(crate::specs::Tries::missing_answer))]
pub fn releases_that_miss(p: Plan) -> Result<Missing, Refusal>
    ensures exact { result ≡ missing_answer p }
{
    plan_check(p)?;
    Ok(missing_of(p))
}
