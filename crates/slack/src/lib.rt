// How far a plan can be changed: of each number of a string, all else as it is, the hardest lawful value with which the plan passes. No
// caller is trusted to have checked anything: a refused plan gives the refusal.
#![tactic(auto)]

mod changing;
mod halving;
mod shown;
mod values;

ghost use Rattle.std.specs.Prelude.{◌≡◌, length};
ghost use Rattle.faults.specs.Checks.{Lawful};
ghost use Rattle.rules.specs.Refusal.{plan_check};
ghost use Rattle.slack.specs.Slack.{limit_of, limit_answer};

use bounds::plan_check;
use changing::is_gapless;
use faults::Refusal;
use halving::{halved, walked};
use lines::Limit;
use rules::Plan;
pub use shown::limits_shown;
use values::lawful_values;

// A number of a string: its C, D, T, moving cost or late days.
#[derive(Clone, Copy)]
pub enum Letter {
    C,
    D,
    T,
    A,
    J,
}

// Where easing never hurts, the lawful values are halved; else each is tried, the hardest first.
pub(crate) fn limit_of(p: Plan, place: usize, letter: Letter) -> Limit
    requires p_value { plan_check p ≡ Lawful }
    requires strings_len { length p.strings ≡ 10 }
    ensures exact { result ≡ limit_of p place letter }
{
    if !(1..=p.n).contains(&place) {
        return None;
    }
    let values = lawful_values(p, place, letter);
    if is_gapless(letter, p.strings[place - 1]) {
        halved(p, place, letter, values)
    } else {
        walked(p, place, letter, values)
    }
}

// The hardest lawful value of a number of the string at a place, from 1, with which the plan passes.
#[tactic(auto, unfolding(crate::specs::Slack::limit_answer))]
pub fn limit_at(p: Plan, place: usize, letter: Letter) -> Result<Limit, Refusal>
    ensures exact { result ≡ limit_answer p place letter }
{
    plan_check(p)?;
    Ok(limit_of(p, place, letter))
}
