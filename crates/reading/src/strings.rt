// The string lines, one after the other.
ghost use Rattle.std.specs.Prelude.{◌≡◌, ◌≤◌, length};
ghost use Rattle.days.specs.Days.{days};
ghost use Rattle.rules.specs.Layout.{frame_size, header_frame, string_frame};
ghost use Rattle.rules.specs.Text.{lines_of, n_in, cost_of, string_of, plan_in, string_line_check, string_lines_check};
ghost use Rattle.layouts.specs.inner.Versions.{meant_by};
ghost use Rattle.reading.specs.inner.Positions.{line_at, lines_from, Frame, Stand, strings_at};

use super::digits::field_of;
use super::frames::frame_check;
use days::Length;
use faults::{Checked, Fault, Refusal};
use layouts::{STRING_C, STRING_D, STRING_T, STRING_X, Version};
use rules::{BatteryString, NO_STRING, Plan};

// The moving cost of a string: the header's where it says one for all, else the string frame's own.
fn cost_of(header: &[u8], frame: &[u8], version: Version) -> Length
    requires header { Frame header.now 0 (frame_size (header_frame (meant_by version))) }
    requires frame { Frame frame.now 0 (frame_size (string_frame (meant_by version))) }
    ensures exact { result ≡ days (cost_of (meant_by version) (line_at header.now 0) (line_at frame.now 0)) }
{
    let layouts = version.layouts();
    if 0 < layouts.common.size {
        Length(field_of(header, layouts.common))
    } else {
        Length(field_of(frame, layouts.own))
    }
}

// What a string frame says, under the header of its text.
fn string_of(header: &[u8], frame: &[u8], version: Version) -> BatteryString
    requires header { Frame header.now 0 (frame_size (header_frame (meant_by version))) }
    requires frame { Frame frame.now 0 (frame_size (string_frame (meant_by version))) }
    ensures exact { result ≡ string_of (meant_by version) (line_at header.now 0) (line_at frame.now 0) }
{
    BatteryString {
        t: Length(field_of(frame, STRING_T)),
        c: Length(field_of(frame, STRING_C)),
        d: Length(field_of(frame, STRING_D)),
        x: field_of(frame, STRING_X),
        a: cost_of(header, frame, version),
        j: Length(field_of(frame, version.layouts().late)),
    }
}

// The first line, which has number k, under the header of its text: 2, 3, then 5.
fn string_line_check(header: &[u8], line: &[u8], k: usize, version: Version) -> Checked
    requires header { Frame header.now 0 (frame_size (header_frame (meant_by version))) }
    ensures exact { result ≡ string_line_check (meant_by version) (line_at header.now 0) k (line_at line.now 0) }
{
    frame_check(line, k, version.layouts().string)?;
    if !bounds::string_lawful(string_of(header, line, version)) {
        return Err(Refusal {
            fault: Fault::OutOfBounds,
            at: k,
        });
    }
    Ok(())
}

// n string lines, the first at `start`. A line that is missing is 3.
pub(crate) fn string_lines_check(text: &[u8], start: usize, n: usize, version: Version) -> Checked
    requires header { Frame text.now 0 (frame_size (header_frame (meant_by version))) }
    requires inside { (start ≤ length text.now) × (start ≤ 1000) × (n ≤ 10) }
    ensures exact { result ≡ string_lines_check (meant_by version) (line_at text.now 0) 2 n
        (lines_from text.now start) }
{
    let line = version.layouts().string.line;
    for i in 0..n {
        let here = start + i * line;
        if text.len() <= here {
            return Err(Refusal {
                fault: Fault::FrameWrong,
                at: i + 2,
            });
        }
        string_line_check(text, &text[here..], i + 2, version)?;
    }
    Ok(())
}

// The plan that a lawful header and n lawful string lines write, of which the first starts at `start`.
pub(crate) fn plan_in(text: &[u8], start: usize, n: usize, version: Version) -> Plan
    requires header { Frame text.now 0 (frame_size (header_frame (meant_by version))) }
    requires first { start ≡ strings_at (meant_by version) }
    requires count { (n ≡ n_in (meant_by version) (line_at text.now 0)) × (n ≤ 10) }
    requires stand { Stand text.now start (frame_size (string_frame (meant_by version))) n }
    ensures exact { result ≡ plan_in (meant_by version) (lines_of text.now) }
{
    let layouts = version.layouts();
    let mut strings = [NO_STRING; 10];
    // By number, since it says both the place in the plan and where the line starts.
    for i in 0..n {
        strings[i] = string_of(text, &text[start + i * layouts.string.line..], version);
    }
    Plan {
        n,
        run: Length(field_of(text, layouts.run)),
        strings,
    }
}
