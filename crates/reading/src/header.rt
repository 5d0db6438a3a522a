// The header line.
ghost use Rattle.std.specs.Prelude.{◌≡◌};
ghost use Rattle.rules.specs.Layout.{frame_size, header_frame};
ghost use Rattle.rules.specs.Text.{header_check};
ghost use Rattle.layouts.specs.inner.Versions.{meant_by};
ghost use Rattle.reading.specs.inner.Positions.{line_at, Frame, header_numbers};

use super::digits::field_of;
use super::frames::frame_check;
use days::Length;
use faults::{Checked, Fault, Refusal};
use layouts::{HEADER_COUNT, HEADER_NUMBER, Version};

// The first line: 2, 3, then 4 for n, then 5 for N and for the moving cost of all strings, where the header says one.
pub(crate) fn header_check(text: &[u8], version: Version) -> Checked
    ensures exact { result ≡ header_check (meant_by version) (line_at text.now 0) }
{
    frame_check(text, 1, version.layouts().header)?;
    numbers_check(text, version)
}

// The version and the numbers of a header that is a frame.
fn numbers_check(text: &[u8], version: Version) -> Checked
    requires { Frame text.now 0 (frame_size (header_frame (meant_by version))) }
    ensures exact { result ≡ header_numbers (meant_by version) (line_at text.now 0) }
{
    let layouts = version.layouts();
    if field_of(text, HEADER_NUMBER) != layouts.number {
        return Err(Refusal {
            fault: Fault::FrameWrong,
            at: 1,
        });
    }
    let n = field_of(text, HEADER_COUNT) as usize;
    let run = Length(field_of(text, layouts.run));
    bounds::head_check(1, n, run)?;
    bounds::cost_check(1, Length(field_of(text, layouts.common)))
}
