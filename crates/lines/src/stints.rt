// The line of a stint of a run, on a page of its own, whatever its numbers are.
ghost use Rattle.std.specs.Prelude.{◌≡◌, ◌++◌, ◌+◌, ◌≤◌, length};
ghost use Rattle.lines.specs.Pages.{page_of, text_of};
ghost use Rattle.lines.specs.Stints.{stint_line};
ghost use Rattle.lines.specs.inner.Uses.{used_words};

use super::Page;
use super::pages::blank;
use rules::{Stint, Use};

impl Page {
    // What the bank did.
    #[tactic(auto, unfolding(rules::specs::Lines::bytes_of, rules::specs::Lines::worded_in, crate::specs::inner::Uses::used_words))]
    fn append_use(self, used: Use) -> Page
        requires { self.len + 64 ≤ 256 }
        ensures exact { text_of result ≡ text_of self ++ used_words used }
    {
        match used {
            Use::Idle => self.append(b" idle\n"),
            Use::Work { place, serves } => self.fill_in(
                b" place # work release #\n",
                &[place as u64, serves as u64],
            ),
            Use::Move { place, serves } => self.fill_in(
                b" place # move release #\n",
                &[place as u64, serves as u64],
            ),
        }
    }
}

// A stint: its days, and what the bank did on them.
pub fn stint_line(s: Stint) -> Page
    ensures exact { result ≡ page_of (stint_line s) }
{
    let first = s.first.0 as u64;
    let days = if s.length.0 < 2 {
        blank().fill_in(b"day #", &[first])
    } else {
        blank().fill_in(b"days # to #", &[first, first + (s.length.0 - 1) as u64])
    };
    days.append_use(s.used)
}
