// The lawful values of a number, the hardest first. For T the common multiple decides which those are.
ghost use Rattle.std.specs.Prelude.{◌≡◌, cond, ◌≤◌};
ghost use Rattle.faults.specs.Checks.{Lawful};
ghost use Rattle.rules.specs.Refusal.{plan_check};
ghost use Rattle.slack.specs.Slack.{value_at};
ghost use Rattle.slack.specs.inner.Values.{HasPlace, HoldsValues};

use super::Letter;
use super::changing::lawful_with;
use rules::Plan;

// Of the 1,001 values the first `count` count.
#[derive(Clone, Copy)]
pub(crate) struct Values {
    pub(crate) count: usize,
    pub(crate) list: [u32; 1001],
}

// The value that k others are harder than.
fn value_at(letter: Letter, k: u32) -> u32
    requires { k ≤ 1000 }
    ensures { result ≡ value_at letter k }
{
    match letter {
        Letter::C => 1000 - k,
        Letter::D => k,
        Letter::T => k,
        Letter::A => 1000 - k,
        Letter::J => 1000 - k,
    }
}

fn one_if(counts: bool) -> usize
    ensures exact { result ≡ cond counts 1 0 }
    ensures small { result ≤ 1 }
{
    if counts { 1 } else { 0 }
}

// Each value is stored behind those that count, and stays where it is lawful.
pub(crate) fn lawful_values(p: Plan, place: usize, letter: Letter) -> Values
    requires has_place { HasPlace p place }
    requires p_value { plan_check p ≡ Lawful }
    ensures { HoldsValues p place letter result.count result.list }
{
    let mut list = [0u32; 1001];
    let mut count: usize = 0;
    let mut k: u32 = 0;
    while k <= 1000 {
        let v = value_at(letter, k);
        list[count] = v;
        count += one_if(lawful_with(p, place, letter, v));
        k += 1;
    }
    Values { count, list }
}
