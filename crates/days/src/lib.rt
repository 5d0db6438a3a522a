// Day numbers and lengths, kept apart: a day says when, a length says how long.
// Day plus length is a day, day minus an earlier day is a length. Nothing here adds two days.
#![tactic(auto)]

ghost use Rattle.std.specs.Prelude.{◌≡◌};
ghost use Rattle.days.specs.Days.{later_of, gap_of};

// A day of the run or of the calendar, counted from 0.
#[derive(Clone, Copy, PartialEq, Eq, PartialOrd, Ord)]
pub struct Day(pub u32);

// A number of days.
#[derive(Clone, Copy, PartialEq, Eq, PartialOrd, Ord)]
pub struct Length(pub u32);

impl Day {
    // The day that lies `length` after this one, if a day number can say it.
    pub fn plus(self, length: Length) -> Option<Day>
        ensures exact { result ≡ later_of self length }
    {
        self.0.checked_add(length.0).map(Day)
    }

    // How long this day lies after `earlier`, if that is not the later day.
    pub fn since(self, earlier: Day) -> Option<Length>
        ensures exact { result ≡ gap_of self earlier }
    {
        self.0.checked_sub(earlier.0).map(Length)
    }
}
