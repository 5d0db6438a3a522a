// Templates of lines: a text with a mark # wherever a number is to stand in decimal digits. No `write!`: what it writes is promised of a
// String alone, and it may fail.
ghost use Rattle.std.specs.Prelude.{◌≡◌, ◌++◌, ◌+◌, ◌*◌, ◌≤◌, length, map};
ghost use Rattle.rules.specs.Lines.{decimal, worded_in};
ghost use Rattle.lines.specs.Pages.{page_of, text_of};

use super::Page;
use super::pages::blank;

impl Page {
    // A template behind the text of the page, with numbers at its marks. A number has at most 20 digits.
    pub(crate) fn fill_in(self, template: &[u8], numbers: &[u64]) -> Page
        requires { self.len + length template.now + 20 * length numbers.now ≤ 256 }
        ensures exact { text_of result ≡ text_of self ++ worded_in template.now (map decimal numbers.now) }
        ensures short { result.len ≤ self.len + length template.now + 20 * length numbers.now }
    {
        let mut page = self;
        let mut left = numbers;
        for b in template {
            page = match left {
                [n, rest @ ..] if *b == b'#' => {
                    left = rest;
                    page.append_number(*n)
                }
                _ => page.append(&[*b]),
            };
        }
        page
    }
}

// A line on a page of its own.
#[tactic(auto, using(crate::proofs::Growing::page_is))]
pub(crate) fn lone_line(template: &[u8], numbers: &[u64]) -> Page
    requires { length template.now + 20 * length numbers.now ≤ 256 }
    ensures exact { result ≡ page_of (worded_in template.now (map decimal numbers.now)) }
{
    blank().fill_in(template, numbers)
}
