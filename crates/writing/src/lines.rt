// The lines of a plan, one after the other: each frame writer is lent the next part of the page.
ghost use Rattle.std.specs.Prelude.{◌≡◌, ◌*◌, length, drop};
ghost use mathlib.Core.List.{◌++◌, flat_map};
ghost use Rattle.rules.specs.Plan.{strings_of};
ghost use Rattle.rules.specs.Release.{releases_of};
ghost use Rattle.rules.specs.Layout.{line_size, string_frame, release_frame};
ghost use Rattle.layouts.specs.inner.Versions.{meant_by};
ghost use Rattle.writing.specs.Written.{string_text, release_text, plan_text};
ghost use Rattle.writing.specs.inner.Cells.{StringsFit, ReleasesFit, PlanFits};

use super::cells::put_frame;
use super::says::{header_cells, release_cells, string_cells};
use layouts::Version;
use rules::{Plan, Releases};

// A line for each string. The releases' lines are put by a loop of their own: one for both would take a closure, whose contract says more
// than the loop.
fn put_strings(part: &mut [u8], p: Plan, version: Version)
    requires { StringsFit (meant_by version) p (length part.old) }
    ensures exact { part.new ≡ flat_map (string_text (meant_by version)) (strings_of p)
        ++ drop (length (strings_of p) * line_size (string_frame (meant_by version))) part.old }
{
    let line = version.layouts().string.line;
    for (i, s) in p.strings[..p.n].iter().enumerate() {
        put_frame(&mut part[i * line..], &string_cells(*s, version));
    }
}

// A line for each release.
fn put_releases(part: &mut [u8], rs: Releases, version: Version)
    requires { ReleasesFit (meant_by version) rs (length part.old) }
    ensures exact { part.new ≡ flat_map (release_text (meant_by version)) (releases_of rs)
        ++ drop (length (releases_of rs) * line_size (release_frame (meant_by version))) part.old }
{
    let line = version.layouts().release.line;
    for (i, r) in rs.list[..rs.count].iter().enumerate() {
        put_frame(&mut part[i * line..], &release_cells(*r, version));
    }
}

// The whole text: header, strings, releases.
pub(crate) fn put_plan(part: &mut [u8], p: Plan, rs: Releases, version: Version)
    requires { PlanFits (meant_by version) p rs (length part.old) }
    ensures exact { part.new ≡ plan_text (meant_by version) p (releases_of rs)
        ++ drop (length (plan_text (meant_by version) p (releases_of rs))) part.old }
{
    let layouts = version.layouts();
    let strings = layouts.header.line;
    let releases = strings + p.n * layouts.string.line;
    put_frame(part, &header_cells(p, version));
    put_strings(&mut part[strings..], p, version);
    put_releases(&mut part[releases..], rs, version);
}
