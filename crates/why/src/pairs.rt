// The lines on a pair: who blocks, what each string asks, and the demand.
ghost use Rattle.std.specs.Prelude.{◌≡◌};
ghost use Rattle.rules.specs.Demand.{demand};
ghost use Rattle.lines.specs.Pages.{page_of};
ghost use Rattle.lines.specs.Why.{demand_line};
ghost use Rattle.why.specs.Shares.{blocker_text, share_text};

use super::asking::{days_for, jobs_within};
use super::checked::CheckedPlan;
use days::Length;
use lines::{Page, blank, blocker_line, demand_line, share_line};

impl CheckedPlan {
    // Who blocks an interval; nothing where nobody does.
    #[tactic(auto, unfolding(crate::specs::Shares::blocker_text))]
    pub(crate) fn blocker(&self, l: u32, b: u32) -> Page
        ensures exact { result ≡ page_of (blocker_text self.now.plan l b) }
    {
        if b == 0 {
            return blank();
        }
        let place = self.blocker_place(l);
        let s = self.plan.strings[place - 1];
        blocker_line(place, self.hold_of(s), s.d)
    }

    // The string at a place; nothing where none stands.
    #[tactic(auto, unfolding(crate::specs::Shares::share_text))]
    pub(crate) fn share_at(&self, l: u32, b: u32, place: usize) -> Page
        ensures exact { result ≡ page_of (share_text self.now.plan l b place) }
    {
        if !(1..=self.plan.n).contains(&place) {
            return blank();
        }
        let s = self.plan.strings[place - 1];
        let days = days_for(l, b, s);
        share_line(place, jobs_within(s, days), days, self.hold_of(s))
    }

    pub(crate) fn demand(&self, l: u32, b: u32) -> Page
        ensures exact { result ≡ page_of (demand_line (demand self.now.plan l b) l) }
    {
        demand_line(self.demand_at(l, b), Length(l))
    }
}
