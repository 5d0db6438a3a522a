// A job alone: whether it waits, holds the bank or has something left, and what each step of a day makes of it.
ghost use Rattle.std.specs.Prelude.{◌≡◌, ◌+◌, ltb};
ghost use Rattle.days.specs.Days.{days};
ghost use Rattle.rules.specs.Run.{left, waits, on_bank, stopped, seated, on_or_gone, used_for};
ghost use Rattle.stretch.specs.Stretch.{part_days, spent_by};

use days::Length;
use rules::{Job, Slot, Use};

// Whether work or moving is left.
pub(crate) fn unfinished(job: Job) -> bool
    ensures exact { result ≡ ltb 0 (left job) }
{
    match job {
        Job::Empty => false,
        Job::Waiting { work, moving } | Job::OnBank { work, moving } => some_left(work, moving),
    }
}

fn some_left(work: Length, moving: Length) -> bool
    ensures exact { result ≡ ltb 0 (work.0 + moving.0) }
{
    0 < work.0 || 0 < moving.0
}

pub(crate) fn is_waiting(job: Job) -> bool
    ensures exact { result ≡ waits job }
{
    matches!(job, Job::Waiting { .. })
}

pub(crate) fn is_on_bank(job: Job) -> bool
    ensures exact { result ≡ on_bank job }
{
    matches!(job, Job::OnBank { .. })
}

// Step 3: the job on the bank waits again.
pub fn stopped_job(job: Job) -> Job
    ensures exact { result ≡ stopped job }
{
    match job {
        Job::OnBank { work, moving } => Job::Waiting { work, moving },
        other => other,
    }
}

// Step 4: the waiting job gets the bank.
pub fn seated_job(job: Job) -> Job
    ensures exact { result ≡ seated job }
{
    match job {
        Job::Waiting { work, moving } => Job::OnBank { work, moving },
        other => other,
    }
}

// The days left of what the job on the bank is at: of moving while there is some, else of work.
pub fn part_left(job: Job) -> Length
    ensures exact { result ≡ days (part_days job) }
{
    match job {
        Job::OnBank { moving, .. } if 0 < moving.0 => moving,
        Job::OnBank { work, .. } => work,
        _ => Length(0),
    }
}

// Step 5: the job on the bank uses days that all go to what it is at, moving days first.
pub fn spent_by(job: Job, used: Length) -> Job
    ensures exact { result ≡ spent_by used.0 job }
{
    match job {
        Job::OnBank { work, moving } if 0 < moving.0 => on_or_gone(
            work,
            Length(moving.0.saturating_sub(used.0)),
        ),
        Job::OnBank { work, moving } => on_or_gone(Length(work.0.saturating_sub(used.0)), moving),
        other => other,
    }
}

// A job with nothing left is gone.
fn on_or_gone(work: Length, moving: Length) -> Job
    ensures exact { result ≡ on_or_gone work moving }
{
    if some_left(work, moving) {
        Job::OnBank { work, moving }
    } else {
        Job::Empty
    }
}

// What the bank does for the job in the slot s at a place: moving days first.
pub fn use_for(place: usize, s: Slot) -> Use
    ensures exact { result ≡ used_for place s.serves s.job }
{
    let serves = s.serves;
    match s.job {
        Job::OnBank { moving, .. } if 0 < moving.0 => Use::Move { place, serves },
        Job::OnBank { .. } => Use::Work { place, serves },
        _ => Use::Idle,
    }
}
