// The lines on two plans: which string of the one is which of the other, or why they do not hold the same strings.
ghost use Rattle.std.specs.Prelude.{◌≡◌, ◌++◌, ◌+◌, ◌*◌, ◌≤◌, length, take};
ghost use Rattle.rules.specs.Lines.{bytes_of, decimal};
ghost use Rattle.lines.specs.Pages.{page_of, text_of};
ghost use Rattle.lines.specs.Same.{places_text, same_line, alone_line, counts_line};

use super::Page;
use super::pages::blank;
use super::templates::lone_line;

impl Page {
    // A place behind a space.
    #[tactic(auto, unfolding(rules::specs::Lines::bytes_of))]
    pub(crate) fn append_place(self, place: usize) -> Page
        requires { self.len + 1 + length (decimal place) ≤ 256 }
        ensures exact { text_of result ≡ text_of self ++ (bytes_of " " ++ decimal place) }
        ensures len { result.len ≡ self.len + 1 + length (decimal place) }
    {
        self.append(b" ").append_number(place as u64)
    }

    // Places, each behind a space.
    fn append_places(self, places: &[usize]) -> Page
        requires { self.len + 21 * length places.now ≤ 256 }
        ensures exact { text_of result ≡ text_of self ++ places_text places.now }
        ensures short { result.len ≤ self.len + 21 * length places.now }
    {
        let mut page = self;
        for place in places {
            page = page.append_place(*place);
        }
        page
    }
}

// The places in the second plan of the strings of the first; of the ten the first `count` count.
pub fn same_line(count: usize, places: [usize; 10]) -> Page
    ensures exact { result ≡ page_of (same_line (take count places)) }
{
    blank()
        .append(b"same")
        .append_places(&places[..count.min(10)])
        .append(b"\n")
}

// A string that has no partner.
#[tactic(auto, unfolding(rules::specs::Lines::bytes_of, crate::specs::Same::alone_line))]
pub fn alone_line(place: usize) -> Page
    ensures exact { result ≡ page_of (alone_line place) }
{
    lone_line(b"differ string #\n", &[place as u64])
}

// Two numbers of strings.
#[tactic(auto, unfolding(rules::specs::Lines::bytes_of, crate::specs::Same::counts_line))]
pub fn counts_line(first: usize, second: usize) -> Page
    ensures exact { result ≡ page_of (counts_line first second) }
{
    lone_line(b"differ strings # and #\n", &[first as u64, second as u64])
}
