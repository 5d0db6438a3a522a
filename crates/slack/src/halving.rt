// The first of the lawful values with which the plan passes: by halving, where no value that passes has a harder one that does not behind
// it, and one after the other.
ghost use Rattle.std.specs.Prelude.{◌≡◌, true, ◌-◌, get_or};
ghost use Rattle.base.specs.Count.{first_of};
ghost use Rattle.rules.specs.Plan.{no_string};
ghost use Rattle.slack.specs.Slack.{passes_with, limit_from};
ghost use Rattle.slack.specs.Beyond.{gapless};
ghost use Rattle.slack.specs.inner.Values.{HasPlace, lawful_values, HoldsValues};

use super::Letter;
use super::changing::passes_with;
use super::values::Values;
use lines::Limit;
use rules::Plan;

// Below `low` the plan passes with no value, from `high` on with each.
pub(crate) fn halved(p: Plan, place: usize, letter: Letter, values: Values) -> Limit
    requires has_place { HasPlace p place }
    requires no_string_value { gapless letter (get_or p.strings (place - 1) no_string) ≡ true }
    requires holds_values { HoldsValues p place letter values.count values.list }
    ensures { result ≡ limit_from (first_of (passes_with p place letter) (lawful_values p place letter)) }
{
    let count = values.count;
    let list = values.list;
    let mut low: usize = 0;
    let mut high = count;
    while low < high {
        let middle = low + (high - low) / 2;
        if passes_with(p, place, letter, list[middle]) {
            high = middle;
        } else {
            low = middle + 1;
        }
    }
    if low < count {
        return Some(list[low]);
    }
    None
}

pub(crate) fn walked(p: Plan, place: usize, letter: Letter, values: Values) -> Limit
    requires has_place { HasPlace p place }
    requires holds_values { HoldsValues p place letter values.count values.list }
    ensures { result ≡ limit_from (first_of (passes_with p place letter) (lawful_values p place letter)) }
{
    let count = values.count;
    let list = values.list;
    let mut i: usize = 0;
    while i < count {
        let v = list[i];
        if passes_with(p, place, letter, v) {
            return Some(v);
        }
        i += 1;
    }
    None
}
