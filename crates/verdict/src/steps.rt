// The intervals at which job counts step. A string's count steps at D − J and then every T days, so that a step gives the next by one
// addition.
ghost use Rattle.std.specs.Prelude.{◌+◌, ◌-◌, ◌≤◌, ◌≡◌, cond, eqb};
ghost use Rattle.base.specs.Count.{smallest_with};
ghost use Rattle.rules.specs.Plan.{strings_of};
ghost use Rattle.laws.proofs.Lawful.{LawfulString, PlanString};
ghost use Rattle.verdict.specs.inner.Asked.{asked_by};
ghost use Rattle.verdict.specs.inner.Steps.{job_of, Parted, step_after, Due};

use super::asking::{hold, jobs_in, leeway_of};
use super::ready::ReadyPlan;
use rules::{BatteryString, Plan};

// A plan taken apart for the walks over its intervals: of each string its T, and what a job of it asks where it may not take the bank and
// where it may, 0 in one of the two. Arrays side by side, as `advance`, which runs once for each interval, has always read them.
#[derive(Clone, Copy)]
pub(crate) struct Parts {
    pub(crate) ready: ReadyPlan,
    pub(crate) every: [u32; 10],
    pub(crate) keeps: [u32; 10],
    pub(crate) takes: [u32; 10],
    ghost parted: { Parted ready.plan every keeps takes },
}

// What the strings ask within an interval and not within the one before it, by whether they may take the bank; and the soonest interval
// after it at which a count steps.
#[derive(Clone, Copy)]
pub(crate) struct Step {
    pub(crate) keepers: u32,
    pub(crate) takers: u32,
    pub(crate) soonest: u32,
}

// What a job of the string asks, if its permission is x.
#[tactic(auto, unfolding(crate::specs::inner::Steps::job_of))]
fn job_of(p: Plan, x: u32, s: BatteryString) -> u32
    requires { PlanString p s }
    ensures { result ≡ job_of p x s }
{
    if s.x == x { hold(p, s) } else { 0 }
}

// The first interval after l at which the string's count steps.
fn step_of(s: BatteryString, l: u32) -> u32
    requires lawful_string { LawfulString s }
    requires l_bound { l ≤ 1000 }
    ensures { result ≡ step_after l s }
{
    jobs_in(s, l) * s.t.0 + leeway_of(s)
}

// The next step of a string as interval l comes.
fn step_from(every: u32, due: u32, l: u32) -> u32
    requires due_bound { due ≤ 102000 }
    requires every_bound { every ≤ 1000 }
    ensures { result ≡ cond (eqb due l) (due + every) due }
{
    if due == l { due + every } else { due }
}

// What it asks more, a job of it asking for `job`.
fn more_at(job: u32, due: u32, l: u32) -> u32
    ensures { result ≡ cond (eqb due l) job 0 }
{
    if due == l { job } else { 0 }
}

impl ReadyPlan {
    pub(crate) fn parts(self) -> Parts
        ensures { result.ready.plan ≡ self.plan }
    {
        let mut every = [0; 10];
        let mut keeps = [0; 10];
        let mut takes = [0; 10];
        for (i, s) in self.strings().iter().enumerate() {
            every[i] = s.t.0;
            keeps[i] = job_of(self.plan, 0, *s);
            takes[i] = job_of(self.plan, 1, *s);
        }
        Parts {
            ready: self,
            every,
            keeps,
            takes,
        }
    }

    // The soonest of all strings' steps after l, or `end` where none comes before that.
    pub(crate) fn first_step(self, l: u32, end: u32) -> u32
        requires { l ≤ 1000 }
        ensures { result ≡ smallest_with (step_after l) end (strings_of self.plan) }
    {
        let mut soonest = end;
        for s in self.strings() {
            soonest = soonest.min(step_of(*s, l));
        }
        soonest
    }

    // For each string the first interval after l at which its count steps.
    pub(crate) fn steps_after(self, l: u32) -> [u32; 10]
        requires { l ≤ 1000 }
        ensures { Due self.plan l result }
    {
        let mut next = [0; 10];
        for (i, s) in self.strings().iter().enumerate() {
            next[i] = step_of(*s, l);
        }
        next
    }
}

impl Parts {
    // Goes on to interval l from the one before it. The soonest step is `end` where none comes before that.
    pub(crate) fn advance(&self, l: u32, end: u32, next: &mut [u32; 10]) -> Step
        requires le_l { 1 ≤ l }
        requires l_bound { l ≤ 101000 }
        requires due_before { Due self.now.ready.plan (l - 1) next.old }
        ensures due { Due self.now.ready.plan l next.new }
        ensures keepers { result.keepers + asked_by self.now.ready.plan 0 (l - 1) ≡ asked_by self.now.ready.plan 0 l }
        ensures takers { result.takers + asked_by self.now.ready.plan 1 (l - 1) ≡ asked_by self.now.ready.plan 1 l }
        ensures soonest { result.soonest ≡ smallest_with (step_after l) end (strings_of self.now.ready.plan) }
    {
        let mut keepers = 0;
        let mut takers = 0;
        let mut soonest = end;
        for i in 0..self.ready.plan.n {
            let due = next[i];
            keepers += more_at(self.keeps[i], due, l);
            takers += more_at(self.takes[i], due, l);
            let later = step_from(self.every[i], due, l);
            next[i] = later;
            soonest = soonest.min(later);
        }
        Step {
            keepers,
            takers,
            soonest,
        }
    }
}
