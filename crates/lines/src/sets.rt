// The line of a permission set: its number, its places, the verdict with it, and what stands behind that.
ghost use Rattle.std.specs.Prelude.{◌≡◌, ◌++◌, ◌+◌, ◌*◌, ◌≤◌, length};
ghost use Rattle.lines.specs.Pages.{page_of, text_of};
ghost use Rattle.lines.specs.Same.{places_text};
ghost use Rattle.lines.specs.Sets.{in_set, takers_of, takers_words, judged_words, note_words, set_line};

use super::Page;
use super::pages::blank;
use rules::Verdict;

// What stands behind the verdict on a set: nothing; of the one that the search finds, that it is the one; of one that does not pass,
// whether the plan with it can miss, where that is known.
#[derive(Clone, Copy, PartialEq, Eq)]
pub enum SetNote {
    Nothing,
    FewestTakers,
    Misses,
    NeverMisses,
}

// Whether a place is in a set: place 1 is worth 1, place 2 is worth 2, place 3 is worth 4.
#[tactic(auto, unfolding(crate::specs::Sets::in_set))]
fn in_set(set: u32, place: usize) -> bool
    requires from_one { 1 ≤ place }
    requires to_ten { place ≤ 10 }
    ensures exact { result ≡ in_set set place }
{
    (set >> (place - 1)) % 2 == 1
}

// How many of the ten places are in a set. Of a chain the library's lemmas know a range without its end, and not yet `1..=10`.
fn takers_in(set: u32) -> usize
    ensures exact { result ≡ length (takers_of set) }
{
    (1..11).filter(|place| in_set(set, *place)).count()
}

impl Page {
    // The places in a set, each behind a space.
    fn append_takers(self, set: u32) -> Page
        requires { self.len ≤ 200 }
        ensures exact { text_of result ≡ text_of self ++ places_text (takers_of set) }
        ensures short { result.len ≤ self.len + 30 }
    {
        let mut page = self;
        for place in 1..=10 {
            if in_set(set, place) {
                page = page.append_place(place);
            }
        }
        page
    }

    // Who may take the bank.
    fn append_who(self, set: u32) -> Page
        requires { self.len ≤ 25 }
        ensures exact { text_of result ≡ text_of self ++ takers_words (takers_of set) }
        ensures short { result.len ≤ self.len + 38 }
    {
        match takers_in(set) {
            0 => self.append(b" nobody"),
            1 => self.append(b" string").append_takers(set),
            _ => self.append(b" strings").append_takers(set),
        }
    }

    // The verdict, without its count of pairs.
    #[tactic(auto, unfolding(rules::specs::Lines::bytes_of, rules::specs::Lines::worded_in, crate::specs::Sets::judged_words))]
    fn append_judged(self, verdict: Verdict) -> Page
        requires { self.len ≤ 63 }
        ensures exact { text_of result ≡ text_of self ++ judged_words verdict }
        ensures short { result.len ≤ self.len + 97 }
    {
        match verdict {
            Verdict::Overload => self.append(b": overload"),
            Verdict::Fail {
                interval,
                blocking,
                demand,
                ..
            } => self.fill_in(
                b": fail interval # blocking # demand #",
                &[interval.0 as u64, blocking.0 as u64, demand.0 as u64],
            ),
            Verdict::Pass { .. } => self.append(b": pass"),
        }
    }

    // What stands behind it, and the line's end.
    #[tactic(auto, unfolding(rules::specs::Lines::bytes_of, crate::specs::Sets::note_words))]
    fn append_note(self, note: SetNote) -> Page
        requires { self.len ≤ 160 }
        ensures exact { text_of result ≡ text_of self ++ note_words note }
    {
        self.append(match note {
            SetNote::Nothing => b"\n",
            SetNote::FewestTakers => b", fewest takers\n",
            SetNote::Misses => b", misses\n",
            SetNote::NeverMisses => b", never misses\n",
        })
    }
}

// The line of a set, whatever its number is; of that the ten lowest binary digits are the places.
#[tactic(auto, using(crate::proofs::Growing::page_is), unfolding(rules::specs::Lines::bytes_of, crate::specs::Sets::set_line))]
pub fn set_line(set: u32, v: Verdict, note: SetNote) -> Page
    ensures exact { result ≡ page_of (set_line set v note) }
{
    blank()
        .fill_in(b"set #", &[set as u64])
        .append_who(set)
        .append_judged(v)
        .append_note(note)
}
