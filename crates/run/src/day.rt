// Steps 3 to 5 of a day, and of the days after it up to the next event.
ghost use Rattle.std.specs.Prelude.{◌≡◌, ◌-◌, false, ◌<◌};
ghost use Rattle.days.specs.Days.{days};
ghost use Rattle.rules.specs.Run.{taken, given};
ghost use Rattle.run.specs.inner.Day.{Affords, Event, EndedBy};

use super::change::charge_at;
use days::{Day, Length};
use rules::{Plan, Slot, Stint, Use};
use slots::{
    due_place, holder_place, next_place, part_left, seated_job, spent_by, stopped_job, taker_place,
    use_for,
};

// Step 3: a job released on `day` that may take the bank and is due before the job on it takes it, and pays.
fn take_bank(slots: &mut [Slot], p: Plan, day: Day)
    requires { Affords p slots.old }
    ensures exact { slots.new ≡ taken p day.0 slots.old }
{
    let Some(holder) = holder_place(slots) else {
        return;
    };
    let held = slots[holder - 1];
    let Some(payer) = taker_place(slots, day, held.deadline) else {
        return;
    };
    slots[holder - 1].job = stopped_job(held.job);
    charge_at(slots, payer, p);
}

// Step 4: a free bank goes to the waiting job that goes first.
fn give_bank(slots: &mut [Slot])
    ensures exact { slots.new ≡ given slots.old }
{
    if holder_place(slots).is_some() {
        return;
    }
    if let Some(next) = next_place(slots) {
        slots[next - 1].job = seated_job(slots[next - 1].job);
    }
}

// Steps 3 and 4 of a day. Where no release came, nobody can take the bank, and step 3 is left out.
pub(crate) fn morning(slots: &mut [Slot], p: Plan, day: Day, came: bool)
    requires affords { Affords p slots.old }
    requires quiet { came ≡ false → taken p day.0 slots.old ≡ slots.old }
    ensures exact { slots.new ≡ given (taken p day.0 slots.old) }
{
    if came {
        take_bank(slots, p, day);
    }
    give_bank(slots);
}

// The first day after today on which something may come between: the earliest deadline of a job with something left, `until` at the latest.
fn next_event(slots: &[Slot], today: Day, until: Day) -> Day
    requires { today.0 < until.0 }
    ensures exact { Event slots.now today.0 until.0 result.0 }
{
    match due_place(slots, today) {
        Some(due) => slots[due - 1].deadline.min(until),
        None => until,
    }
}

// How long `later` lies after `earlier`; nothing where it does not.
#[tactic(auto, unfolding(days::specs::Days::gap_of))]
fn days_to(later: Day, earlier: Day) -> Length
    ensures exact { result ≡ days (later.0 - earlier.0) }
{
    later.since(earlier).unwrap_or(Length(0))
}

// Step 5, day after day: the job on the bank uses the day, or the day is idle, up to the next event, which is `until` at the latest. The
// stretch ends, too, with what the job is at: its moving, or its work.
pub(crate) fn use_days(slots: &mut [Slot], today: Day, until: Day) -> Stint
    requires { today.0 < until.0 }
    ensures exact { EndedBy slots.old slots.new today until.0 result }
{
    let gap = days_to(next_event(slots, today, until), today);
    let Some(holder) = holder_place(slots) else {
        return Stint {
            first: today,
            length: gap,
            used: Use::Idle,
        };
    };
    let held = slots[holder - 1];
    let length = Length(part_left(held.job).0.min(gap.0).max(1));
    slots[holder - 1].job = spent_by(held.job, length);
    Stint {
        first: today,
        length,
        used: use_for(holder, held),
    }
}
