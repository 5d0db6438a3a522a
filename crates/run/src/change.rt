// Step 3: a job pays for taking the bank.
ghost use Rattle.std.specs.Prelude.{◌≡◌, ◌+◌, ◌≤◌, ◌<◌, ◌^◌, length};
ghost use Rattle.rules.specs.Demand.{moving_cost};
ghost use Rattle.rules.specs.Run.{slot_at, charged, charge};
ghost use Rattle.laws.proofs.JobParts.{moving_of};

use days::Length;
use rules::{Job, Plan, Slot};

// The payer has more moving before it.
fn charged_job(job: Job, cost: Length) -> Job
    requires { moving_of job + cost.0 < 2 ^ 32 }
    ensures exact { result ≡ charged cost.0 job }
{
    match job {
        Job::Empty => Job::Empty,
        Job::Waiting { work, moving } => Job::Waiting {
            work,
            moving: Length(moving.0 + cost.0),
        },
        Job::OnBank { work, moving } => Job::OnBank {
            work,
            moving: Length(moving.0 + cost.0),
        },
    }
}

// The job at a place pays.
pub(crate) fn charge_at(slots: &mut [Slot], place: usize, p: Plan)
    requires within { (1 ≤ place) × (place ≤ length slots.old) }
    requires place_bound { moving_of (slot_at slots.old place).job + moving_cost p (slot_at slots.old place).string < 2 ^ 32 }
    ensures exact { slots.new ≡ charge p slots.old place }
{
    let s = slots[place - 1];
    slots[place - 1].job = charged_job(s.job, p.moving_cost(s.string));
}
