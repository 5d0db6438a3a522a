// The bounds on a string, and the first string of a plan outside them.
ghost use Rattle.std.specs.Prelude.{◌≡◌, ◌<◌, not, position, IfSome};
ghost use Rattle.rules.specs.Plan.{strings_of, string_lawful};
ghost use Rattle.rules.specs.Refusal.{strings_check};

use faults::{Checked, Fault, Refusal};
use rules::{BatteryString, Plan};

// Whether T, D, J, C, X and the moving cost are within their bounds.
#[tactic(auto, unfolding(rules::specs::Plan::string_lawful, rules::specs::Plan::cost_lawful))]
pub fn string_lawful(s: BatteryString) -> bool
    ensures exact { result ≡ string_lawful s }
{
    (1..=1000).contains(&s.t.0)
        && (1..=s.t.0).contains(&s.d.0)
        && s.j < s.d
        && (1..=s.d.0 - s.j.0).contains(&s.c.0)
        && s.x <= 1
        && s.a.0 <= 1000
}

// Where the first string outside its bounds stands, counted from 0.
fn first_outside(p: Plan) -> Option<usize>
    ensures exact { result ≡ position (λ s. not (string_lawful s)) (strings_of p) }
    ensures within { IfSome result (λ i. i < p.n) }
{
    p.strings.iter().take(p.n).position(|s| !string_lawful(*s))
}

// The first string outside its bounds, by place.
pub(crate) fn strings_check(p: Plan) -> Checked
    ensures exact { result ≡ strings_check 1 (strings_of p) }
{
    match first_outside(p) {
        Some(i) => Err(Refusal {
            fault: Fault::OutOfBounds,
            at: i + 1,
        }),
        None => Ok(()),
    }
}
