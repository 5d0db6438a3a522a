// A plan and its releases, written as frames into the caller's page from a place that the caller names.
#![tactic(auto)]

mod cells;
mod costs;
mod digits;
mod lines;
mod room;
mod says;

ghost use Rattle.std.specs.Prelude.{◌≡◌, length};
ghost use Rattle.faults.specs.Checks.{Lawful};
ghost use Rattle.rules.specs.Refusal.{run_check};
ghost use Rattle.rules.specs.Layout.{version01, version02, version03};
ghost use Rattle.layouts.specs.inner.Versions.{meant_by};
ghost use Rattle.writing.specs.Saved.{saved_text, saved_answer, saved_page};

use costs::writable_check;
use faults::Refusal;
use layouts::Version;
use lines::put_plan;
pub use room::room_check;
use rules::{Plan, Releases};

// How long the text of a lawful plan is in a version.
fn text_length(p: Plan, rs: Releases, version: Version) -> usize
    requires { run_check p rs ≡ Lawful }
    ensures exact { result ≡ length (saved_text (meant_by version) p rs) }
{
    let layouts = version.layouts();
    layouts.header.line + p.n * layouts.string.line + rs.count * layouts.release.line
}

// The text of a plan in a version: 4 to 8 as for numbers, 12 where the version cannot say the plan, then 9 with 0 where there is no room.
// One writer serves all versions: where they differ, the version says. A header that says the moving cost of all strings says that of the
// first.
#[tactic(auto, unfolding(crate::specs::Saved::saved_answer, crate::specs::Saved::saved_page, crate::specs::Saved::save_check))]
fn write_in(
    p: Plan,
    rs: Releases,
    page: &mut [u8],
    at: usize,
    version: Version,
) -> Result<usize, Refusal>
    ensures exact { result ≡ saved_answer (meant_by version) p rs page.old at }
    ensures page { page.new ≡ saved_page (meant_by version) p rs page.old at }
{
    writable_check(p, rs, version)?;
    let length = text_length(p, rs, version);
    room_check(page, at, length)?;
    put_plan(&mut page[at..], p, rs, version);
    Ok(length)
}

// Three functions and not one over the version: `write`, `write_02` and `write_01` are the names of docs/PROMISES.md.
//
// The plan's text, in version 03, goes into the page from `at` on; the bytes ahead of it and behind it stay. 4 to 8 as for numbers, then
// 9 with 0 where there is no room; then no byte of the page is another.
#[tactic(auto, unfolding(rules::specs::Layout::held_to))]
pub fn write(p: Plan, rs: Releases, page: &mut [u8], at: usize) -> Result<usize, Refusal>
    ensures exact { result ≡ saved_answer version03 p rs page.old at }
    ensures page { page.new ≡ saved_page version03 p rs page.old at }
{
    write_in(p, rs, page, at, Version::Third)
}

// The same in version 02, for a plan without late days: it says none, and no due day.
#[tactic(auto, unfolding(rules::specs::Layout::held_to))]
pub fn write_02(p: Plan, rs: Releases, page: &mut [u8], at: usize) -> Result<usize, Refusal>
    ensures exact { result ≡ saved_answer version02 p rs page.old at }
    ensures page { page.new ≡ saved_page version02 p rs page.old at }
{
    write_in(p, rs, page, at, Version::Second)
}

// The same in version 01, which moreover has one moving cost for all strings: where they differ, 12 with the place of the first string that
// differs from place 1, after 8 and before 9.
#[tactic(auto, unfolding(rules::specs::Layout::held_to))]
pub fn write_01(p: Plan, rs: Releases, page: &mut [u8], at: usize) -> Result<usize, Refusal>
    ensures exact { result ≡ saved_answer version01 p rs page.old at }
    ensures page { page.new ≡ saved_page version01 p rs page.old at }
{
    write_in(p, rs, page, at, Version::First)
}
