// The checks of entries that take numbers, in the order of document 01: is a plan, a permission set, a release list lawful?
// No caller is trusted to have checked anything: each function answers for all numbers.
#![tactic(auto)]

mod periods;
mod releases;
mod strings;

ghost use Rattle.std.specs.Prelude.{◌≡◌};
ghost use Rattle.rules.specs.Plan.{strings_of};
ghost use Rattle.rules.specs.Refusal.{head_check, cost_check, strings_check, multiple_check, plan_check, set_check, run_check};
ghost use Rattle.faults.specs.Checks.{then};

use days::Length;
use faults::{Checked, Fault, Refusal};
pub use periods::multiple;
pub use releases::first_unlawful;
use rules::{Plan, Releases};
pub use strings::string_lawful;
use strings::strings_check;

// n, then N; a fault is reported at `at`.
#[tactic(auto, unfolding(rules::specs::Refusal::count_check, rules::specs::Refusal::run_length_check))]
pub fn head_check(at: usize, n: usize, run: Length) -> Checked
    ensures exact { result ≡ head_check at n run.0 }
{
    if !(1..=10).contains(&n) {
        return Err(Refusal {
            fault: Fault::StringCount,
            at,
        });
    }
    if !(1..=1000000).contains(&run.0) {
        return Err(Refusal {
            fault: Fault::OutOfBounds,
            at,
        });
    }
    Ok(())
}

// A moving cost that is said for the whole plan; a fault is reported at `at`.
#[tactic(auto, unfolding(rules::specs::Refusal::cost_check, rules::specs::Plan::cost_lawful))]
pub fn cost_check(at: usize, a: Length) -> Checked
    ensures exact { result ≡ cost_check at a.0 }
{
    if 1000 < a.0 {
        return Err(Refusal {
            fault: Fault::OutOfBounds,
            at,
        });
    }
    Ok(())
}

// H; a fault is reported at `at`.
#[tactic(auto, unfolding(rules::specs::Refusal::multiple_check))]
pub fn multiple_check(at: usize, p: Plan) -> Checked
    ensures exact { result ≡ multiple_check at p }
{
    if 100000 < multiple(p) {
        return Err(Refusal {
            fault: Fault::MultipleOver,
            at,
        });
    }
    Ok(())
}

// The strings place by place, then H.
fn body_check(p: Plan) -> Checked
    ensures exact { result ≡ then (strings_check 1 (strings_of p)) (multiple_check 0 p) }
{
    strings_check(p)?;
    multiple_check(0, p)
}

// Whether a plan is lawful; if not, the first fault.
#[tactic(auto, unfolding(rules::specs::Refusal::plan_check))]
pub fn plan_check(p: Plan) -> Checked
    ensures exact { result ≡ plan_check p }
{
    head_check(0, p.n, p.run)?;
    body_check(p)
}

// The same with a permission set, which is looked at straight after N.
#[tactic(auto, unfolding(rules::specs::Refusal::set_check))]
pub fn set_check(p: Plan, set: u32) -> Checked
    ensures exact { result ≡ set_check p set }
{
    head_check(0, p.n, p.run)?;
    if (1u32 << p.n) <= set {
        return Err(Refusal {
            fault: Fault::OutOfBounds,
            at: 0,
        });
    }
    body_check(p)
}

// Whether a plan and a release list are lawful; if not, the first fault.
#[tactic(auto, unfolding(rules::specs::Refusal::run_check, rules::specs::Refusal::releases_check))]
pub fn run_check(p: Plan, rs: Releases) -> Checked
    ensures exact { result ≡ run_check p rs }
{
    plan_check(p)?;
    if 1000 < rs.count {
        return Err(Refusal {
            fault: Fault::ReleaseTooMany,
            at: 1001,
        });
    }
    match first_unlawful(p, rs) {
        Some(place) => Err(Refusal {
            fault: Fault::ReleaseUnlawful,
            at: place,
        }),
        None => Ok(()),
    }
}
