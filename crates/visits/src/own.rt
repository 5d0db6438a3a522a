// The visits of our own run: its stints of one release that touch, joined, idle ones left out.
ghost use Rattle.std.specs.Prelude.{◌≡◌, ◌+◌, ◌-◌, ◌≤◌, ◌<◌, ◌^◌};
ghost use Rattle.rules.specs.Stints.{release_used};
ghost use Rattle.visits.specs.Visits.{end_of_visit};
ghost use Rattle.visits.specs.OwnRun.{stints_visits, handed_out, own_visits};
ghost use Rattle.visits.specs.inner.Own.{stints_in, StintsEnd, worked_visit, last_at, pushed};

use super::{OwnVisits, Visit};
use days::{Day, Length};
use faults::Refusal;
use rules::{Plan, Releases, Stint, Use};
use run::stint_at;

const NO_VISIT: Visit = Visit {
    release: 0,
    first: Day(0),
    length: Length(0),
};

// The release that a use serves; 0 for none.
fn release_of(used: Use) -> u32
    requires { release_used used < 2 ^ 32 }
    ensures exact { result ≡ release_used used }
{
    match used {
        Use::Idle => 0,
        Use::Work { place: _, serves } => serves as u32,
        Use::Move { place: _, serves } => serves as u32,
    }
}

// The visit that a stint is; an idle one is none.
#[tactic(auto, unfolding(crate::specs::inner::Own::worked_visit))]
fn visit_of(s: Stint) -> Option<Visit>
    requires { release_used s.used < 2 ^ 32 }
    ensures exact { result ≡ worked_visit s }
{
    let release = release_of(s.used);
    if release == 0 {
        return None;
    }
    Some(Visit {
        release,
        first: s.first,
        length: s.length,
    })
}

impl OwnVisits {
    // One visit more: where it touches the last one, of the same release, that one becomes longer.
    #[tactic(auto, unfolding(crate::specs::inner::Own::pushed))]
    fn push(&mut self, v: Visit)
        requires count_bound { self.old.count < 3001 }
        requires last_bound { end_of_visit (last_at self.old) ≤ 1000000 }
        requires v_bound { end_of_visit v ≤ 1000000 }
        ensures exact { self.new ≡ pushed self.old v }
    {
        let at = self.count.saturating_sub(1);
        let last = self.list[at];
        if v.release == last.release && v.first.0 == last.first.0 + last.length.0 {
            self.list[at] = Visit {
                length: Length(last.length.0 + v.length.0),
                ..last
            };
        } else {
            self.list[self.count] = v;
            self.count += 1;
        }
    }
}

// The visits of the first stints of a list of numbers.
fn joined(numbers: &[u32], stints: usize) -> OwnVisits
    requires stints_bound { stints ≤ 3001 }
    requires stints_end { StintsEnd numbers.now stints }
    ensures exact { result ≡ handed_out (stints_visits (stints_in numbers.now stints)) }
{
    let mut own = OwnVisits {
        count: 0,
        list: [NO_VISIT; 3001],
    };
    for i in 0..stints {
        if let Some(visit) = visit_of(stint_at(numbers, i)) {
            own.push(visit);
        }
    }
    own
}

// The visits of our own run; 4 to 8 on the plan and its releases. Of a run that misses, those up to the miss.
pub fn own_visits(p: Plan, rs: Releases) -> Result<OwnVisits, Refusal>
    ensures exact { result ≡ own_visits p rs }
{
    let mut numbers = [0u32; 15005];
    let stints = run::stints(p, rs, &mut numbers)?;
    Ok(joined(&numbers, stints))
}
