// One line of the text: is it well formed, and is it the frame that is wanted?
ghost use Rattle.std.specs.Prelude.{◌≡◌};
ghost use Rattle.rules.specs.Text.{well_formed, frame_check};
ghost use Rattle.reading.specs.inner.Positions.{digits_ahead, line_at};

use super::digits::{digits_ahead, field_of};
use faults::{Checked, Fault, Refusal};
use layouts::{KIND, Layout};

// Whether the first line, with so many digits ahead, is nothing but them and its 0a, not empty, of even length.
fn well_formed(line: &[u8], digits: usize) -> bool
    requires { digits ≡ digits_ahead line.now }
    ensures exact { result ≡ well_formed (line_at line.now 0) }
{
    digits < line.len() && line[digits] == b'\n' && digits != 0 && digits % 2 == 0
}

// The first line, which has number k: 2 where it is malformed, then 3 where its size or kind is another.
pub(crate) fn frame_check(line: &[u8], k: usize, layout: Layout) -> Checked
    ensures exact { result ≡ frame_check k layout.kind layout.size (line_at line.now 0) }
{
    let digits = digits_ahead(line);
    if !well_formed(line, digits) {
        return Err(Refusal {
            fault: Fault::LineMalformed,
            at: k,
        });
    }
    if digits / 2 != layout.size || field_of(line, KIND) != layout.kind {
        return Err(Refusal {
            fault: Fault::FrameWrong,
            at: k,
        });
    }
    Ok(())
}
