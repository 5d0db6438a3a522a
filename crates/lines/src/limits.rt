// The line of a string whose numbers stand beside their limits.
ghost use Rattle.std.specs.Prelude.{◌≡◌, ◌++◌, ◌+◌, ◌≤◌, length};
ghost use Rattle.rules.specs.Lines.{bytes_of, decimal};
ghost use Rattle.lines.specs.Pages.{page_of, text_of};
ghost use Rattle.lines.specs.Limits.{limit_text, limits_line};

use super::Page;
use super::pages::blank;
use days::Length;
use rules::BatteryString;

// How far a number can go: to a value, or no value will do.
pub type Limit = Option<u32>;

// The limits of a string's C, D, T, moving cost and late days.
#[derive(Clone, Copy)]
pub struct Limits {
    pub c: Limit,
    pub d: Limit,
    pub t: Limit,
    pub a: Limit,
    pub j: Limit,
}

impl Page {
    #[tactic(auto, unfolding(rules::specs::Lines::bytes_of, crate::specs::Limits::limit_text))]
    fn append_limit(self, limit: Limit) -> Page
        requires { self.len + 10 ≤ 256 }
        ensures exact { text_of result ≡ text_of self ++ limit_text limit }
        ensures short { result.len ≤ self.len + 10 }
    {
        match limit {
            Some(value) => self.append_number(value as u64),
            None => self.append(b"none"),
        }
    }

    // A number behind its label, and its limit.
    #[tactic(auto, unfolding(rules::specs::Lines::bytes_of))]
    fn append_beside(self, label: &[u8], number: Length, limit: Limit) -> Page
        requires { self.len + length label.now + 27 ≤ 256 }
        ensures exact { text_of result ≡ text_of self
            ++ (label.now ++ decimal number.0 ++ bytes_of " limit " ++ limit_text limit) }
        ensures short { result.len ≤ self.len + length label.now + 27 }
    {
        self.append(label)
            .append_number(number.0 as u64)
            .append(b" limit ")
            .append_limit(limit)
    }
}

// A string at its place, each number beside its limit.
pub fn limits_line(place: usize, s: BatteryString, limits: Limits) -> Page
    ensures exact { result ≡ page_of (limits_line place s limits) }
{
    blank()
        .fill_in(b"string #", &[place as u64])
        .append_beside(b" C ", s.c, limits.c)
        .append_beside(b" D ", s.d, limits.d)
        .append_beside(b" T ", s.t, limits.t)
        .append_beside(b" moving ", s.a, limits.a)
        .append_beside(b" late ", s.j, limits.j)
        .append(b"\n")
}
