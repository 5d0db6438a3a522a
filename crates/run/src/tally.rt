// The days of a run so far, by what the bank did on them.
ghost use Rattle.std.specs.Prelude.{◌≡◌, ◌≤◌};
ghost use Rattle.run.specs.inner.Tally.{Under, added_to};

use days::Length;
use rules::{Outcome, Use};

#[derive(Clone, Copy)]
pub(crate) struct Tally {
    pub(crate) work: Length,
    pub(crate) moving: Length,
    pub(crate) idle: Length,
}

impl Tally {
    // The tally with a stretch of days more, all used alike.
    pub(crate) fn with(self, used: Use, length: Length) -> Tally
        requires under { Under 1000000 self }
        requires length_bound { length.0 ≤ 1000000 }
        ensures exact { result ≡ added_to self used length.0 }
    {
        match used {
            Use::Idle => Tally {
                idle: Length(self.idle.0 + length.0),
                ..self
            },
            Use::Work { .. } => Tally {
                work: Length(self.work.0 + length.0),
                ..self
            },
            Use::Move { .. } => Tally {
                moving: Length(self.moving.0 + length.0),
                ..self
            },
        }
    }

    // What a clean run reports.
    pub(crate) fn clean(self) -> Outcome
        ensures exact { result ≡ Outcome.Clean self.work self.moving self.idle }
    {
        let Tally { work, moving, idle } = self;
        Outcome::Clean { work, moving, idle }
    }
}
