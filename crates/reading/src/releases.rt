// The release lines, one after the other.
ghost use Rattle.std.specs.Prelude.{◌≡◌, ◌+◌, ◌≤◌, length};
ghost use Rattle.rules.specs.Layout.{frame_size, release_frame};
ghost use Rattle.days.specs.Days.{day};
ghost use Rattle.faults.specs.Checks.{then};
ghost use Rattle.rules.specs.Refusal.{many_check};
ghost use Rattle.rules.specs.Text.{due_in, release_of, frame_check};
ghost use Rattle.layouts.specs.inner.Versions.{meant_by};
ghost use Rattle.reading.specs.inner.Positions.{line_at, lines_from, Frame, Stand, frames_in, release_list};

use super::Framed;
use super::digits::field_of;
use super::frames::frame_check;
use days::{Day, Length};
use faults::{Checked, Fault, Refusal};
use layouts::{Layout, RELEASE_DAY, RELEASE_NEED, RELEASE_PLACE, Version};
use rules::{NO_RELEASE, Release, Releases};

// The due day of a release: what its frame says, or its day where the frame says none.
fn due_of(frame: &[u8], version: Version) -> Day
    requires { Frame frame.now 0 (frame_size (release_frame (meant_by version))) }
    ensures exact { result ≡ day (due_in (meant_by version) (line_at frame.now 0)) }
{
    let due = version.layouts().due;
    if 0 < due.size {
        Day(field_of(frame, due))
    } else {
        Day(field_of(frame, RELEASE_DAY))
    }
}

// What a release frame says.
fn release_of(frame: &[u8], version: Version) -> Release
    requires { Frame frame.now 0 (frame_size (release_frame (meant_by version))) }
    ensures exact { result ≡ release_of (meant_by version) (line_at frame.now 0) }
{
    Release {
        day: Day(field_of(frame, RELEASE_DAY)),
        place: field_of(frame, RELEASE_PLACE) as usize,
        need: Length(field_of(frame, RELEASE_NEED)),
        due: due_of(frame, version),
    }
}

// The first line, which has number k and would be the release after so many: 2, 3, then 7.
fn room_check(line: &[u8], k: usize, count: usize, layout: Layout) -> Checked
    ensures exact { result ≡ then (frame_check k layout.kind layout.size (line_at line.now 0)) (many_check k (count + 1)) }
{
    frame_check(line, k, layout)?;
    if 1000 <= count {
        return Err(Refusal {
            fault: Fault::ReleaseTooMany,
            at: k,
        });
    }
    Ok(())
}

// Release lines from `start` on, the first with number k: how many are frames before the text ends, a line is no frame or a
// thousand are there.
pub(crate) fn release_frames(text: &[u8], start: usize, k: usize, version: Version) -> Framed
    requires inside { (start ≤ length text.now) × (start ≤ 1000) × (k ≤ 1000) }
    ensures exact { result ≡ frames_in (release_frame (meant_by version)) k 1000 (lines_from text.now start) }
{
    let layout = version.layouts().release;
    // The text ends the lines, so no range counts them.
    let mut count = 0;
    while start + count * layout.line < text.len() {
        if let Err(refusal) = room_check(
            &text[start + count * layout.line..],
            k + count,
            count,
            layout,
        ) {
            return Framed {
                count,
                checked: Err(refusal),
            };
        }
        count += 1;
    }
    Framed {
        count,
        checked: Ok(()),
    }
}

// The releases that `count` frames from `start` on write.
pub(crate) fn releases_in(text: &[u8], start: usize, count: usize, version: Version) -> Releases
    requires bound { (start ≤ 1000) × (count ≤ 1000) }
    requires stand { Stand text.now start (frame_size (release_frame (meant_by version))) count }
    ensures exact { result ≡ release_list (meant_by version) text.now start count }
{
    let line = version.layouts().release.line;
    let mut list = [NO_RELEASE; 1000];
    // By number, since it says both the place in the list and where the line starts.
    for i in 0..count {
        list[i] = release_of(&text[start + i * line..], version);
    }
    Releases { count, list }
}
