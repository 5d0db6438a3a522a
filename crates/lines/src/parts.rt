// What is written for an answer: a line each for the verdict, the permission set and the run, which together fit a page; or the refusal.
ghost use Rattle.std.specs.Prelude.{◌≡◌, ◌++◌, ◌+◌, ◌≤◌};
ghost use Rattle.rules.specs.Lines.{verdict_line, assign_line, outcome_line, refused_line, lines_for, asked_line};
ghost use Rattle.lines.specs.Pages.{page_of, text_of};
ghost use Rattle.lines.specs.Stints.{end_line};

use super::Page;
use super::pages::blank;
use super::templates::lone_line;
use faults::Refusal;
use rules::{Answers, Assign, Outcome, Verdict};

impl Page {
    #[tactic(auto, unfolding(rules::specs::Lines::bytes_of, rules::specs::Lines::worded_in, rules::specs::Lines::verdict_line))]
    fn append_verdict(self, verdict: Verdict) -> Page
        requires { self.len + 132 ≤ 256 }
        ensures exact { text_of result ≡ text_of self ++ verdict_line verdict }
        ensures short { result.len ≤ self.len + 132 }
    {
        match verdict {
            Verdict::Overload => self.append(b"verdict overload\n"),
            Verdict::Fail {
                interval,
                blocking,
                demand,
                pairs,
            } => self.fill_in(
                b"verdict fail interval # blocking # demand # pairs #\n",
                &[
                    interval.0 as u64,
                    blocking.0 as u64,
                    demand.0 as u64,
                    pairs as u64,
                ],
            ),
            Verdict::Pass { pairs } => self.fill_in(b"verdict pass pairs #\n", &[pairs as u64]),
        }
    }

    #[tactic(auto, unfolding(rules::specs::Lines::bytes_of, rules::specs::Lines::worded_in, rules::specs::Lines::assign_line))]
    fn append_assign(self, assign: Assign) -> Page
        requires { self.len + 29 ≤ 256 }
        ensures exact { text_of result ≡ text_of self ++ assign_line assign }
        ensures short { result.len ≤ self.len + 29 }
    {
        match assign {
            Some(set) => self.fill_in(b"assign #\n", &[set as u64]),
            None => self.append(b"assign none\n"),
        }
    }

    #[tactic(auto, unfolding(rules::specs::Lines::bytes_of, rules::specs::Lines::worded_in, rules::specs::Lines::outcome_line))]
    fn append_outcome(self, outcome: Outcome) -> Page
        requires { self.len + 91 ≤ 256 }
        ensures exact { text_of result ≡ text_of self ++ outcome_line outcome }
    {
        match outcome {
            Outcome::Miss { day, place } => {
                self.fill_in(b"run miss day # place #\n", &[day.0 as u64, place as u64])
            }
            Outcome::Clean { work, moving, idle } => self.fill_in(
                b"run clean work # move # idle #\n",
                &[work.0 as u64, moving.0 as u64, idle.0 as u64],
            ),
        }
    }
}

// A refusal on a page of its own.
pub(crate) fn refused(refusal: Refusal) -> Page
    ensures exact { result ≡ page_of (refused_line refusal.fault refusal.at) }
{
    lone_line(
        b"refused # line #\n",
        &[u32::from(refusal.fault) as u64, refusal.at as u64],
    )
}

// All that is written for an answer. Its longest text is shorter than a page.
#[tactic(auto, using(crate::proofs::Growing::page_is), unfolding(rules::specs::Lines::lines_for))]
pub fn written(answer: Result<Answers, Refusal>) -> Page
    ensures exact { result ≡ page_of (lines_for answer) }
{
    match answer {
        Ok(found) => blank()
            .append_verdict(found.verdict)
            .append_assign(found.assign)
            .append_outcome(found.outcome),
        Err(refusal) => refused(refusal),
    }
}

// The line of a verdict that was asked for alone: its refusal, or the verdict.
#[tactic(auto, using(crate::proofs::Growing::page_is), unfolding(rules::specs::Lines::asked_line))]
pub fn verdict_written(verdict: Result<Verdict, Refusal>) -> Page
    ensures exact { result ≡ page_of (asked_line verdict) }
{
    match verdict {
        Ok(found) => blank().append_verdict(found),
        Err(refusal) => refused(refusal),
    }
}

// The line of a run that was asked for alone: its refusal, or how it ends.
#[tactic(auto, using(crate::proofs::Growing::page_is), unfolding(crate::specs::Stints::end_line))]
pub fn run_written(outcome: Result<Outcome, Refusal>) -> Page
    ensures exact { result ≡ page_of (end_line outcome) }
{
    match outcome {
        Ok(found) => blank().append_outcome(found),
        Err(refusal) => refused(refusal),
    }
}
