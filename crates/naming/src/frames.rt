// Refusal 3: why a line is no frame that may stand there.
ghost use Rattle.std.specs.Prelude.{◌≡◌};
ghost use Rattle.rules.specs.Text.{lines_of};
ghost use Rattle.layouts.specs.inner.Versions.{meant_by};
ghost use Rattle.naming.specs.Lines.{line_no};
ghost use Rattle.naming.specs.Frames.{missing_reason, kind_due, length_due, header_reason, frame_reason};

use super::said::{line_in, number_in};
use layouts::{Layout, Version};
use lines::Reason;

// A line that the text does not have, in a plan of n strings.
#[tactic(auto, unfolding(crate::specs::Frames::missing_reason))]
fn missing_reason(n: u64, k: usize) -> Reason
    ensures exact { result ≡ missing_reason n k }
{
    if k <= 1 {
        Reason::NoHeader
    } else {
        Reason::StringMissing {
            place: k as u64 - 1,
            n,
        }
    }
}

// The frame that is due on line k of a plan of n strings.
#[tactic(auto, unfolding(crate::specs::Frames::kind_due, crate::specs::Frames::length_due))]
fn frame_due(version: Version, n: u64, k: usize) -> Layout
    ensures kind { result.kind ≡ kind_due n k }
    ensures size { result.size ≡ length_due (meant_by version) n k }
{
    let layouts = version.layouts();
    if k <= 1 {
        layouts.header
    } else if k as u64 - 1 <= n {
        layouts.string
    } else {
        layouts.release
    }
}

// A header of the right kind.
#[tactic(auto, unfolding(crate::specs::Frames::header_reason, crate::specs::inner::Bytes::number_at))]
fn header_reason(version: Version, line: &[u8]) -> Reason
    ensures exact { result ≡ header_reason (meant_by version) line.now }
{
    let layouts = version.layouts();
    let bytes = line.len() as u64 / 2;
    let due = layouts.header.size as u64;
    if bytes < 2 {
        return Reason::OtherLength { bytes, due };
    }
    let number = number_in(line, 1, 1);
    if number == u64::from(layouts.number) {
        Reason::OtherLength { bytes, due }
    } else {
        Reason::OtherVersion { version: number }
    }
}

// Of line k.
#[tactic(auto, unfolding(crate::specs::Frames::frame_reason, crate::specs::inner::Bytes::number_at))]
pub(crate) fn frame_reason(text: &[u8], version: Version, n: u64, k: usize) -> Reason
    ensures exact { result ≡ frame_reason (meant_by version) n k (line_no (lines_of text.now) k).bytes }
{
    let line = line_in(text, k);
    if line.len() == 0 {
        return missing_reason(n, k);
    }
    let due = frame_due(version, n, k);
    let kind = number_in(line, 0, 1);
    if kind != due.kind as u64 {
        return Reason::OtherKind {
            kind,
            due: due.kind as u64,
        };
    }
    if k <= 1 {
        return header_reason(version, line);
    }
    Reason::OtherLength {
        bytes: (line.len() / 2) as u64,
        due: due.size as u64,
    }
}
