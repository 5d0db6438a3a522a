// Whether two plans hold the same strings in another order, which string of the one is which of the other, and the line that says so. The
// answer is for any two plans: N plays no part, and neither do bounds.
#![tactic(auto)]

mod likes;

ghost use Rattle.std.specs.Prelude.{◌≡◌};
ghost use Rattle.rules.specs.Plan.{strings_of};
ghost use Rattle.lines.specs.Pages.{page_of};
ghost use Rattle.matching.specs.Matched.{no_places, matched_of, matched_line};

use likes::{index_like, likes_among};
use lines::{Page, alone_line, counts_line, same_line};
use rules::Plan;

// The same strings in another order, and how many; or the first string of the first plan that has no partner left; or how many strings
// each plan has, where that differs.
#[derive(Clone, Copy)]
pub enum Matching {
    Same { count: usize },
    Alone { place: usize },
    Counts { first: usize, second: usize },
}

// With the place in the second plan of each string of the first, by place; 0 where there is no string, and everywhere unless all match:
// `matched_of` lists them so, and `same_line` takes them.
#[derive(Clone, Copy)]
pub struct Matched {
    pub matching: Matching,
    pub places: [usize; 10],
}

// An answer without places.
fn unmatched(matching: Matching) -> Matched
    ensures exact { result ≡ no_places matching }
{
    Matched {
        matching,
        places: [0; 10],
    }
}

// Which of the three it is. Of each plan the first n strings count, or all ten where n is larger.
pub fn same_strings(p: Plan, q: Plan) -> Matched
    ensures exact { result ≡ matched_of (strings_of p) (strings_of q) }
{
    let firsts = &p.strings[..p.n.min(10)];
    let seconds = &q.strings[..q.n.min(10)];
    let count = firsts.len();
    if count != seconds.len() {
        return unmatched(Matching::Counts {
            first: count,
            second: seconds.len(),
        });
    }
    let mut places = [0; 10];
    for (i, s) in firsts.iter().enumerate() {
        let Some(index) = index_like(seconds, *s, likes_among(&firsts[..i], *s)) else {
            return unmatched(Matching::Alone { place: i + 1 });
        };
        places[i] = index + 1;
    }
    Matched {
        matching: Matching::Same { count },
        places,
    }
}

// The line that is written for the answer.
#[tactic(auto, unfolding(crate::specs::Matched::matching_says, crate::specs::Matched::said_line, crate::specs::Matched::matched_line))]
pub fn matched_line(m: Matched) -> Page
    ensures exact { result ≡ page_of (matched_line m) }
{
    match m.matching {
        Matching::Same { count } => same_line(count, m.places),
        Matching::Alone { place } => alone_line(place),
        Matching::Counts { first, second } => counts_line(first, second),
    }
}
