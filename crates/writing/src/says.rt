// What the frames of a plan say, cell by cell, in the layouts that the reader goes by.
ghost use Rattle.std.specs.Prelude.{◌≤◌};
ghost use Rattle.rules.specs.Layout.{header_frame, string_frame, release_frame};
ghost use Rattle.layouts.specs.inner.Versions.{meant_by};
ghost use Rattle.writing.specs.Written.{header_says, string_says, release_says};
ghost use Rattle.writing.specs.inner.Cells.{SaysFrame};

use super::cells::Cell;
use layouts::{
    HEADER_COUNT, HEADER_NUMBER, KIND, RELEASE_DAY, RELEASE_NEED, RELEASE_PLACE, STRING_C,
    STRING_D, STRING_T, STRING_X, Version,
};
use rules::{BatteryString, Plan, Release};

// The header: its kind and four fields. A moving cost for all strings is that of the first.
pub(crate) fn header_cells(p: Plan, version: Version) -> [Cell; 5]
    requires { (1 ≤ p.n) × (p.n ≤ 10) }
    ensures exact { SaysFrame result (header_frame (meant_by version)) (header_says (meant_by version).number p) }
{
    let layouts = version.layouts();
    [
        Cell::of(KIND, layouts.header.kind),
        Cell::of(HEADER_NUMBER, layouts.number),
        Cell::of(HEADER_COUNT, p.n as u32),
        Cell::of(layouts.common, p.strings[0].a.0),
        Cell::of(layouts.run, p.run.0),
    ]
}

// A string: its kind and six fields.
pub(crate) fn string_cells(s: BatteryString, version: Version) -> [Cell; 7]
    ensures exact { SaysFrame result (string_frame (meant_by version)) (string_says s) }
{
    let layouts = version.layouts();
    [
        Cell::of(KIND, layouts.string.kind),
        Cell::of(STRING_X, s.x),
        Cell::of(STRING_T, s.t.0),
        Cell::of(STRING_C, s.c.0),
        Cell::of(STRING_D, s.d.0),
        Cell::of(layouts.own, s.a.0),
        Cell::of(layouts.late, s.j.0),
    ]
}

// A release: its kind and four fields.
pub(crate) fn release_cells(r: Release, version: Version) -> [Cell; 5]
    requires { r.place ≤ 10 }
    ensures exact { SaysFrame result (release_frame (meant_by version)) (release_says r) }
{
    let layouts = version.layouts();
    [
        Cell::of(KIND, layouts.release.kind),
        Cell::of(RELEASE_PLACE, r.place as u32),
        Cell::of(RELEASE_DAY, r.day.0),
        Cell::of(RELEASE_NEED, r.need.0),
        Cell::of(layouts.due, r.due.0),
    ]
}
