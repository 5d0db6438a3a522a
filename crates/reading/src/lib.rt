// Any bytes in, one exact answer out: a plan file read, or refused with its number and line.
// Everything is checked first and stored afterwards. A frame that is not refused has its version's length, so where a line starts is
// known whenever it is looked at. One reader serves all versions: where they differ, the version says.
#![tactic(auto)]

mod digits;
mod frames;
mod header;
mod releases;
mod strings;

ghost use Rattle.std.specs.Prelude.{◌≡◌};
ghost use Rattle.rules.specs.Layout.{version01, version02};
ghost use Rattle.rules.specs.Text.{reading_in, reading_of, said_in};
ghost use Rattle.layouts.specs.inner.Versions.{meant_by};
ghost use Rattle.reading.specs.inner.Positions.{HeaderRead, StringsRead, body_said, rest_said, list_said};

use digits::{digits_ahead, field_of};
use faults::{Checked, Fault, Refusal};
use header::header_check;
use layouts::{HEADER_COUNT, HEADER_NUMBER, Version, held_to};
use releases::{release_frames, releases_in};
use rules::{Plan, PlanFile};
use strings::{plan_in, string_lines_check};

// Release lines that are frames, up to the first that is not or the end: how many, and what ended them. No Result: the frames ahead of a
// refused line are looked at first, so their count is wanted on a refusal too.
#[derive(Clone, Copy)]
pub struct Framed {
    pub count: usize,
    pub checked: Checked,
}

// The release lines of the plan p: each line's 2, 3, 7, 8.
fn read_list(text: &[u8], version: Version, p: Plan) -> Result<PlanFile, Refusal>
    requires { StringsRead (meant_by version) text.now p }
    ensures exact { result ≡ list_said (meant_by version) text.now p }
{
    let layouts = version.layouts();
    let start = layouts.header.line + p.n * layouts.string.line;
    let framed = release_frames(text, start, p.n + 2, version);
    let releases = releases_in(text, start, framed.count, version);
    if let Some(place) = bounds::first_unlawful(p, releases) {
        return Err(Refusal {
            fault: Fault::ReleaseUnlawful,
            at: p.n + 1 + place,
        });
    }
    framed.checked?;
    Ok(PlanFile { plan: p, releases })
}

// What follows the strings of the plan p: 6 at the last of them, then the release lines.
fn read_rest(text: &[u8], version: Version, p: Plan) -> Result<PlanFile, Refusal>
    requires { StringsRead (meant_by version) text.now p }
    ensures exact { result ≡ rest_said (meant_by version) text.now p }
{
    bounds::multiple_check(p.n + 1, p)?;
    read_list(text, version, p)
}

// The lines after a lawful header.
fn read_body(text: &[u8], version: Version) -> Result<PlanFile, Refusal>
    requires { HeaderRead (meant_by version) text.now }
    ensures exact { result ≡ body_said (meant_by version) text.now }
{
    let n = field_of(text, HEADER_COUNT) as usize;
    let start = version.layouts().header.line;
    string_lines_check(text, start, n, version)?;
    read_rest(text, version, plan_in(text, start, n, version))
}

// What a text says that is held to a version.
fn read_in(text: &[u8], version: Version) -> Result<PlanFile, Refusal>
    ensures exact { result ≡ said_in (reading_in (meant_by version) text.now) }
{
    if 65536 < text.len() {
        return Err(Refusal {
            fault: Fault::TextTooLong,
            at: 0,
        });
    }
    if text.is_empty() {
        return Err(Refusal {
            fault: Fault::FrameWrong,
            at: 1,
        });
    }
    header_check(text, version)?;
    read_body(text, version)
}

// What a version 01 text says; another version is 3 at line 1. The text is lent and keeps its bytes.
#[tactic(auto, unfolding(rules::specs::Layout::held_to))]
pub fn read_01(text: &[u8]) -> Result<PlanFile, Refusal>
    ensures exact { result ≡ said_in (reading_in version01 text.now) }
    ensures kept { text.exit.now ≡ text.entry.now }
{
    read_in(text, Version::First)
}

// What a version 02 text says; another version is 3 at line 1. The text is lent and keeps its bytes.
#[tactic(auto, unfolding(rules::specs::Layout::held_to))]
pub fn read_02(text: &[u8]) -> Result<PlanFile, Refusal>
    ensures exact { result ≡ said_in (reading_in version02 text.now) }
    ensures kept { text.exit.now ≡ text.entry.now }
{
    read_in(text, Version::Second)
}

// What a text says: the plan and its releases, or the first fault with its line. Its header names the version. The text is lent and
// keeps its bytes.
pub fn read(text: &[u8]) -> Result<PlanFile, Refusal>
    ensures exact { result ≡ said_in (reading_of text.now) }
    ensures kept { text.exit.now ≡ text.entry.now }
{
    // The version is the second byte, digits 3 and 4.
    if digits_ahead(text) < 4 {
        return read_in(text, Version::First);
    }
    read_in(text, held_to(field_of(text, HEADER_NUMBER)))
}
