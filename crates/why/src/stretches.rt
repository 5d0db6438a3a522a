// Intervals that break the rule, one after the other.
ghost use Rattle.std.specs.Prelude.{◌≡◌, ◌≤◌};
ghost use Rattle.base.specs.Count.{any, up_from};
ghost use Rattle.lines.specs.Pages.{page_of};
ghost use Rattle.why.specs.Stairs.{last_interval, broken_in, starts_at, stretch_end, stretch_text, nowhere_text};

use super::checked::CheckedPlan;
use days::Length;
use lines::{Page, blank, nowhere_line, stretch_line};

impl CheckedPlan {
    // Whether some interval breaks the rule.
    fn broken_somewhere(&self) -> bool
        ensures exact { result ≡ any (broken_in self.now.plan) (up_from 1 (last_interval self.now.plan)) }
    {
        (1..self.last_interval() + 1).any(|l| self.broken_in(l))
    }

    // Whether l is the first of such intervals.
    #[tactic(auto, unfolding(crate::specs::Stairs::starts_at))]
    fn starts_at(&self, l: u32) -> bool
        requires { 1 ≤ l }
        ensures exact { result ≡ starts_at self.now.plan l }
    {
        self.broken_in(l) && !self.broken_in(l - 1)
    }

    // The last of those from l on.
    fn stretch_end(&self, l: u32) -> u32
        requires low { 1 ≤ l }
        requires high { l ≤ last_interval self.now.plan }
        ensures exact { result ≡ stretch_end self.now.plan l }
    {
        let last = self.last_interval();
        for m in l..last + 1 {
            if !self.broken_in(m) {
                return m - 1;
            }
        }
        last
    }

    // The line of those that start at l; none where l is not the first.
    #[tactic(auto, unfolding(crate::specs::Stairs::stretch_text))]
    pub(crate) fn stretch(&self, l: u32) -> Page
        ensures exact { result ≡ page_of (stretch_text self.now.plan l) }
    {
        let last = self.last_interval();
        if (1..=last).contains(&l) && self.starts_at(l) {
            stretch_line(Length(l), Length(self.stretch_end(l)), Length(last))
        } else {
            blank()
        }
    }

    // That no interval breaks the rule.
    #[tactic(auto, unfolding(crate::specs::Stairs::nowhere_text))]
    pub(crate) fn nowhere(&self) -> Page
        ensures exact { result ≡ page_of (nowhere_text self.now.plan) }
    {
        if self.broken_somewhere() {
            blank()
        } else {
            nowhere_line(Length(self.last_interval()))
        }
    }
}
