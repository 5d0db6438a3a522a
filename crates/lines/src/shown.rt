// The lines of a plan that is shown. Each is written on a page of its own, whatever the numbers are.
ghost use Rattle.std.specs.Prelude.{◌≡◌, ◌++◌, ◌+◌, ◌≤◌};
ghost use Rattle.lines.specs.Pages.{page_of, text_of};
ghost use Rattle.lines.specs.Shown.{plan_line, permission, late_words, string_line, load_line, due_words, release_line};

use super::Page;
use super::pages::blank;
use super::templates::lone_line;
use days::{Day, Length};
use rules::{BatteryString, Release};

impl Page {
    // Whether the jobs of a string may take the bank.
    #[tactic(auto, unfolding(rules::specs::Lines::bytes_of, crate::specs::Shown::permission))]
    fn append_permission(self, x: u32) -> Page
        requires { self.len + 12 ≤ 256 }
        ensures exact { text_of result ≡ text_of self ++ permission x }
        ensures short { result.len ≤ self.len + 12 }
    {
        self.append(if x == 1 { b"may take" } else { b"may not take" })
    }

    // The late days of a string, where it has any.
    #[tactic(auto, unfolding(rules::specs::Lines::bytes_of, rules::specs::Lines::worded_in, crate::specs::Shown::late_words))]
    fn append_late(self, j: Length) -> Page
        requires { self.len + 27 ≤ 256 }
        ensures exact { text_of result ≡ text_of self ++ late_words j.0 }
        ensures short { result.len ≤ self.len + 27 }
    {
        if j.0 == 0 {
            self
        } else {
            self.fill_in(b" late #", &[j.0 as u64])
        }
    }

    // The due day of a release, where it comes on another day.
    #[tactic(auto, unfolding(rules::specs::Lines::bytes_of, rules::specs::Lines::worded_in, crate::specs::Shown::due_words))]
    fn append_due(self, day: Day, due: Day) -> Page
        requires { self.len + 26 ≤ 256 }
        ensures exact { text_of result ≡ text_of self ++ due_words day.0 due.0 }
        ensures short { result.len ≤ self.len + 26 }
    {
        if due == day {
            self
        } else {
            self.fill_in(b" due #", &[due.0 as u64])
        }
    }
}

// The strings and the days of a plan.
#[tactic(auto, unfolding(rules::specs::Lines::bytes_of, crate::specs::Shown::plan_line))]
pub fn plan_line(n: usize, run: Length) -> Page
    ensures exact { result ≡ page_of (plan_line n run.0) }
{
    lone_line(b"plan strings # run #\n", &[n as u64, run.0 as u64])
}

// A string at its place, and its E.
pub fn string_line(place: usize, s: BatteryString, hold: u32) -> Page
    ensures exact { result ≡ page_of (string_line place s hold) }
{
    blank()
        .fill_in(b"string # ", &[place as u64])
        .append_permission(s.x)
        .fill_in(b" T # C # D #", &[s.t.0 as u64, s.c.0 as u64, s.d.0 as u64])
        .append_late(s.j)
        .fill_in(b" moving # E #\n", &[s.a.0 as u64, hold as u64])
}

// H, and the load out of it.
#[tactic(auto, unfolding(rules::specs::Lines::bytes_of, crate::specs::Shown::load_line))]
pub fn load_line(multiple: u32, load: u32) -> Page
    ensures exact { result ≡ page_of (load_line multiple load) }
{
    lone_line(
        b"H # load # of #\n",
        &[multiple as u64, load as u64, multiple as u64],
    )
}

// A release at its place in the list, with its due day where it comes on another.
pub fn release_line(k: usize, r: Release) -> Page
    ensures exact { result ≡ page_of (release_line k r) }
{
    blank()
        .fill_in(b"release # day #", &[k as u64, r.day.0 as u64])
        .append_due(r.day, r.due)
        .fill_in(b" string # need #\n", &[r.place as u64, r.need.0 as u64])
}
