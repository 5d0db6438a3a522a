// The columns of the bars, from the stints of a run.
ghost use Rattle.std.specs.Prelude.{◌≡◌, ◌&&◌, ◌+◌, ◌≤◌, ltb, take};
ghost use mathlib.Core.List.{[], ◌∷◌, ◌++◌, map, flat_map};
ghost use Rattle.base.specs.Count.{up_from};
ghost use Rattle.rules.specs.Run.{is_idle};
ghost use Rattle.visits.specs.inner.Own.{stints_in, StintsEnd};
ghost use Rattle.bars.specs.Bars.{column, stint_columns, day_mark};
ghost use Rattle.bars.specs.inner.Drawing.{cols_of, UpToSeventy, Drawing, missed_column, MissEnds};

use super::Column;
use rules::{Stint, Use};
use run::stint_at;

const NO_COLUMN: Column = Column { first: 0, days: 0 };

// The columns drawn so far: the first `count` of seventy.
#[derive(Clone, Copy)]
pub(crate) struct Drawn {
    pub(crate) count: usize,
    pub(crate) columns: [Column; 70],
}

// Whether the days of a stint share a column: more than nine idle ones do.
fn is_long_idle(used: Use, length: u32) -> bool
    ensures exact { result ≡ (is_idle used && ltb 9 length) }
{
    match used {
        Use::Idle => 9 < length,
        _ => false,
    }
}

impl Drawn {
    // Nothing is drawn yet.
    fn none() -> Drawn
        ensures exact { Drawing result [] }
    {
        Drawn {
            count: 0,
            columns: [NO_COLUMN; 70],
        }
    }

    // One column more, where there is room.
    fn with_column(self, first: u32, days: u32) -> Drawn
        requires up_to_seventy { UpToSeventy self }
        requires le_days { 1 ≤ days }
        requires days_bound { first + days ≤ 1000001 }
        ensures exact { Drawing result (cols_of self ++ (column first days ∷ [])) }
    {
        if self.count == 70 {
            return self;
        }
        let mut columns = self.columns;
        columns[self.count] = Column { first, days };
        Drawn {
            count: self.count + 1,
            columns,
        }
    }

    // The days of a stint, a column each, as long as there is room.
    fn with_days(self, first: u32, length: u32) -> Drawn
        requires up_to_seventy { UpToSeventy self }
        requires length_bound { first + length ≤ 1000000 }
        ensures exact { Drawing result (cols_of self ++ map (λ t. column t 1) (up_from first length)) }
    {
        let mut next = self;
        for passed in 0..length {
            next = next.with_column(first + passed, 1);
        }
        next
    }

    // The columns of a stint behind those that are drawn.
    fn with_stint(self, s: Stint) -> Drawn
        requires up_to_seventy { UpToSeventy self }
        requires length_bound { s.first.0 + s.length.0 ≤ 1000000 }
        ensures exact { Drawing result (cols_of self ++ stint_columns s) }
    {
        if self.count == 70 {
            return self;
        }
        if is_long_idle(s.used, s.length.0) {
            return self.with_column(s.first.0, s.length.0);
        }
        self.with_days(s.first.0, s.length.0)
    }
}

// The columns of the run whose stints are in the list; a miss has its own, on its day.
pub(crate) fn drawn_from(list: &[u32], stints: usize, missed: Option<u32>) -> Drawn
    requires stints_end { StintsEnd list.now stints }
    requires end_bound { MissEnds missed }
    ensures exact { Drawing result (flat_map stint_columns (stints_in list.now stints) ++ missed_column missed) }
{
    let mut drawn = Drawn::none();
    for i in 0..stints {
        drawn = drawn.with_stint(stint_at(list, i));
    }
    match missed {
        Some(day) => drawn.with_column(day, 1),
        None => drawn,
    }
}

// What stands above a column.
fn day_mark(c: Column) -> u8
    ensures exact { result ≡ day_mark c }
{
    if 1 < c.days {
        return b'~';
    }
    b'0' + (c.first % 10) as u8
}

// The marks above the columns.
pub(crate) fn day_marks(drawn: Drawn) -> [u8; 70]
    requires { UpToSeventy drawn }
    ensures exact { take drawn.count result ≡ map day_mark (cols_of drawn) }
{
    let mut marks = [b' '; 70];
    for (i, c) in drawn.columns[..drawn.count].iter().enumerate() {
        marks[i] = day_mark(*c);
    }
    marks
}
