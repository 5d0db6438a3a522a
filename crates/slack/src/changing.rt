// A plan with one number of one string changed, and whether it is lawful and passes.
ghost use Rattle.std.specs.Prelude.{◌≡◌};
ghost use Rattle.faults.specs.Checks.{Lawful};
ghost use Rattle.rules.specs.Refusal.{plan_check};
ghost use Rattle.slack.specs.Slack.{string_with, plan_with, passes_with};
ghost use Rattle.slack.specs.Beyond.{gapless};
ghost use Rattle.slack.specs.inner.Values.{HasPlace, leaves_multiple, lawful_with};

use super::Letter;
use bounds::{plan_check, string_lawful};
use days::Length;
use rules::{BatteryString, Plan};
use verdict::quick;

// Whether easing never hurts this number of the string: D only where no job comes late.
pub(crate) fn is_gapless(letter: Letter, s: BatteryString) -> bool
    ensures { result ≡ gapless letter s }
{
    match letter {
        Letter::C => true,
        Letter::D => s.j.0 == 0,
        Letter::T => true,
        Letter::A => true,
        Letter::J => true,
    }
}

fn string_with(letter: Letter, v: u32, s: BatteryString) -> BatteryString
    ensures { result ≡ string_with letter v s }
{
    let value = Length(v);
    match letter {
        Letter::C => BatteryString { c: value, ..s },
        Letter::D => BatteryString { d: value, ..s },
        Letter::T => BatteryString { t: value, ..s },
        Letter::A => BatteryString { a: value, ..s },
        Letter::J => BatteryString { j: value, ..s },
    }
}

#[tactic(auto, unfolding(crate::specs::Slack::plan_with))]
fn plan_with(p: Plan, place: usize, letter: Letter, v: u32) -> Plan
    requires { HasPlace p place }
    ensures { result ≡ plan_with p place letter v }
{
    let mut strings = p.strings;
    strings[place - 1] = string_with(letter, v, strings[place - 1]);
    Plan { strings, ..p }
}

// Whether H stays as it is with another value: it does of all but T.
fn leaves_multiple(letter: Letter) -> bool
    ensures { result ≡ leaves_multiple letter }
{
    match letter {
        Letter::C => true,
        Letter::D => true,
        Letter::T => false,
        Letter::A => true,
        Letter::J => true,
    }
}

// Whether the plan is lawful with another value. The bounds on the string decide and, where the value is a T, the common multiple.
pub(crate) fn lawful_with(p: Plan, place: usize, letter: Letter, v: u32) -> bool
    requires has_place { HasPlace p place }
    requires p_value { plan_check p ≡ Lawful }
    ensures { result ≡ lawful_with p place letter v }
{
    if !string_lawful(string_with(letter, v, p.strings[place - 1])) {
        return false;
    }
    leaves_multiple(letter) || plan_check(plan_with(p, place, letter, v)).is_ok()
}

// Whether it is lawful and passes: a quick verdict says so.
pub(crate) fn passes_with(p: Plan, place: usize, letter: Letter, v: u32) -> bool
    requires { HasPlace p place }
    ensures { result ≡ passes_with p place letter v }
{
    match quick(plan_with(p, place, letter, v)) {
        Ok(verdict) => verdict.passes(),
        Err(_) => false,
    }
}
