// A plan shown in decimal words, line by line: the plan, each string with its E, H and the load, each release. No caller is trusted to
// have checked anything: a refused plan gives the refusal's line, and a place at which nothing stands an empty page.
#![tactic(auto)]

ghost use Rattle.std.specs.Prelude.{◌≡◌};
ghost use Rattle.rules.specs.Plan.{strings_of, no_string};
ghost use Rattle.rules.specs.Figures.{holds_of};
ghost use Rattle.lines.specs.Pages.{page_of};
ghost use Rattle.showing.specs.Shown.{in_place, string_words, plan_shown, string_shown, load_shown, release_shown};

use bounds::plan_check;
use lines::{Page, blank, load_line, plan_line, release_line, string_line, written};
use rules::{Plan, Releases};
use verdict::figures;

// The line of the plan.
#[tactic(auto, unfolding(crate::specs::Shown::plan_shown, rules::specs::Lines::lines_for))]
pub fn plan_shown(p: Plan) -> Page
    ensures exact { result ≡ page_of (plan_shown p) }
{
    match plan_check(p) {
        Ok(()) => plan_line(p.n, p.run),
        Err(refusal) => written(Err(refusal)),
    }
}

// The string at a place, given E by place.
fn string_in(p: Plan, holds: [u32; 10], place: usize) -> Page
    requires { holds ≡ holds_of p }
    ensures exact { result ≡ page_of (in_place (string_words p) no_string (strings_of p) place) }
{
    if !(1..=p.n.min(10)).contains(&place) {
        return blank();
    }
    string_line(place, p.strings[place - 1], holds[place - 1])
}

// The line of the string at a place, from 1.
#[tactic(auto, using(crate::proofs::Figured::figured), unfolding(crate::specs::Shown::string_shown, rules::specs::Lines::lines_for))]
pub fn string_shown(p: Plan, place: usize) -> Page
    ensures exact { result ≡ page_of (string_shown p place) }
{
    match figures(p) {
        Ok(found) => string_in(p, found.holds, place),
        Err(refusal) => written(Err(refusal)),
    }
}

// The line of H and the load.
#[tactic(auto, using(crate::proofs::Figured::figured), unfolding(crate::specs::Shown::load_shown, rules::specs::Lines::lines_for))]
pub fn load_shown(p: Plan) -> Page
    ensures exact { result ≡ page_of (load_shown p) }
{
    match figures(p) {
        Ok(found) => load_line(found.multiple, found.load),
        Err(refusal) => written(Err(refusal)),
    }
}

// The line of the k-th release, from 1. The list has a thousand places, whatever its count says.
pub fn release_shown(rs: Releases, k: usize) -> Page
    ensures exact { result ≡ page_of (release_shown rs k) }
{
    if !(1..=rs.count.min(1000)).contains(&k) {
        return blank();
    }
    release_line(k, rs.list[k - 1])
}
