// The permission sets of a plan, line by line in the order of the search: number, places, verdict, and what is known beyond it. No caller
// is trusted to have checked anything: a refused plan gives the refusal's line, and a place at which no set stands an empty page.
#![tactic(auto)]

ghost use Rattle.std.specs.Prelude.{◌^◌, ◌≤◌, ◌<◌, ◌≡◌, get_or};
ghost use Rattle.rules.specs.Search.{ordered};
ghost use Rattle.tries.specs.Tries.{missing_answer};
ghost use Rattle.lines.specs.Pages.{page_of};
ghost use Rattle.showing.specs.Shown.{in_place};
ghost use Rattle.sets.specs.Sets.{found_note, miss_note, note_of, set_words, set_shown};

use bounds::plan_check;
use lines::{Page, SetNote, blank, set_line, written};
use rules::{Assign, Plan, Verdict};
use tries::{Missing, releases_that_miss};
use verdict::{quick_with, with_set};

// The k-th set of n places, from 0: fewer ones first, among equals the smaller number first.
fn set_in_order(n: usize, k: usize) -> u32
    requires n_bound { n ≤ 10 }
    requires k_bound { k < 2 ^ n }
    ensures exact { result ≡ get_or (ordered n) k 0 }
{
    let mut left = k;
    for ones in 0..=n as u32 {
        for set in 0..1u32 << n {
            if set.count_ones() != ones {
                continue;
            }
            if left == 0 {
                return set;
            }
            left -= 1;
        }
    }
    0
}

// Of a set that passes: whether it is the one that the search found.
#[tactic(auto, unfolding(crate::specs::Sets::found_note))]
fn found_note(found: Assign, set: u32) -> SetNote
    ensures exact { result ≡ found_note found set }
{
    if found == Some(set) {
        SetNote::FewestTakers
    } else {
        SetNote::Nothing
    }
}

// Of a plan that does not pass: whether a list misses, as far as that is known.
#[tactic(auto, unfolding(crate::specs::Sets::miss_note))]
fn miss_note(p: Plan) -> SetNote
    ensures exact { result ≡ miss_note (missing_answer p) }
{
    match releases_that_miss(p) {
        Ok(Missing::Never) => SetNote::NeverMisses,
        Ok(Missing::TooMany | Missing::Found { .. }) => SetNote::Misses,
        Ok(Missing::Passes | Missing::NoneFound) | Err(_) => SetNote::Nothing,
    }
}

#[tactic(auto, unfolding(crate::specs::Sets::note_of))]
fn note_of(p: Plan, found: Assign, set: u32, v: Verdict) -> SetNote
    ensures exact { result ≡ note_of p found set v }
{
    if v.passes() {
        found_note(found, set)
    } else {
        miss_note(with_set(p, set))
    }
}

// The line of a set: what `quick_with` answers for it, and what is known beyond that.
#[tactic(auto, unfolding(crate::specs::Sets::set_words, crate::specs::Sets::asked_words, rules::specs::Lines::lines_for))]
fn set_words(p: Plan, found: Assign, set: u32) -> Page
    ensures exact { result ≡ page_of (set_words p found set) }
{
    match quick_with(p, set) {
        Ok(verdict) => set_line(set, verdict, note_of(p, found, set, verdict)),
        Err(refusal) => written(Err(refusal)),
    }
}

// The k-th set of a plan of at most ten strings.
fn set_in(p: Plan, found: Assign, k: usize) -> Page
    requires { p.n ≤ 10 }
    ensures exact { result ≡ page_of (in_place (λ i m. set_words p found m) 0 (ordered p.n) k) }
{
    if !(1..=1usize << p.n).contains(&k) {
        return blank();
    }
    set_words(p, found, set_in_order(p.n, k - 1))
}

// The line of the k-th set, from 1, where the search found so.
#[tactic(auto, unfolding(crate::specs::Sets::set_shown, rules::specs::Lines::lines_for))]
pub fn set_shown(p: Plan, found: Assign, k: usize) -> Page
    ensures exact { result ≡ page_of (set_shown p found k) }
{
    match plan_check(p) {
        Ok(()) => set_in(p, found, k),
        Err(refusal) => written(Err(refusal)),
    }
}
