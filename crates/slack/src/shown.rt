// The line of a string whose numbers stand beside their limits.
ghost use Rattle.std.specs.Prelude.{◌≡◌, length};
ghost use Rattle.faults.specs.Checks.{Lawful};
ghost use Rattle.rules.specs.Plan.{strings_of, no_string};
ghost use Rattle.rules.specs.Refusal.{plan_check};
ghost use Rattle.lines.specs.Pages.{page_of};
ghost use Rattle.showing.specs.Shown.{in_place};
ghost use Rattle.slack.specs.Slack.{limits_of, limit_words, limits_shown};

use super::{Letter, limit_of};
use bounds::plan_check;
use lines::{Limits, Page, blank, limits_line, written};
use rules::Plan;

#[tactic(auto, unfolding(crate::specs::Slack::limits_of))]
fn limits_of(p: Plan, place: usize) -> Limits
    requires p_value { plan_check p ≡ Lawful }
    requires strings_len { length p.strings ≡ 10 }
    ensures { result ≡ limits_of p place }
{
    let c = limit_of(p, place, Letter::C);
    let d = limit_of(p, place, Letter::D);
    let t = limit_of(p, place, Letter::T);
    let a = limit_of(p, place, Letter::A);
    let j = limit_of(p, place, Letter::J);
    Limits { c, d, t, a, j }
}

// The string at a place of a lawful plan.
fn shown_in(p: Plan, place: usize) -> Page
    requires p_value { plan_check p ≡ Lawful }
    requires strings_len { length p.strings ≡ 10 }
    ensures exact { result ≡ page_of (in_place (limit_words p) no_string (strings_of p) place) }
{
    if !(1..=p.n.min(10)).contains(&place) {
        return blank();
    }
    limits_line(place, p.strings[place - 1], limits_of(p, place))
}

// The line of the string at a place, from 1.
#[tactic(auto, unfolding(crate::specs::Slack::limits_shown, rules::specs::Lines::lines_for))]
pub fn limits_shown(p: Plan, place: usize) -> Page
    ensures exact { result ≡ page_of (limits_shown p place) }
{
    match plan_check(p) {
        Ok(()) => shown_in(p, place),
        Err(refusal) => written(Err(refusal)),
    }
}
