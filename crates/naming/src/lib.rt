// A refused plan file, by name: which rule of the refusal's number its line breaks, with the numbers that the rule speaks of. What is
// refused, and at which line, is the reader's answer; here it is only looked up in the text.
#![tactic(auto)]

mod frames;
mod malformed;
mod multiples;
mod outside;
mod releases;
mod said;

ghost use Rattle.std.specs.Prelude.{◌≡◌};
ghost use Rattle.faults.specs.Checks.{fault_number};
ghost use Rattle.rules.specs.Text.{lines_of, version_of};
ghost use Rattle.layouts.specs.inner.Versions.{meant_by};
ghost use Rattle.lines.specs.Pages.{page_of};
ghost use Rattle.naming.specs.Named.{bounds_reason, framed_reason, reason_for, refusal_text};

use faults::Fault;
use frames::frame_reason;
use layouts::{HEADER_COUNT, Version};
use lines::{Page, Reason, blank, reason_line};
use malformed::malformed_reason;
use multiples::multiple_reason;
use outside::{head_reason, string_reason};
use releases::release_reason;
use said::{field_of, line_in, string_of, version_of};

// Of 5: the header's numbers, or a string's.
#[tactic(auto, unfolding(crate::specs::Named::bounds_reason, rules::specs::Text::a_in, rules::specs::Text::run_in))]
fn bounds_reason(text: &[u8], k: usize, version: Version) -> Reason
    requires { meant_by version ≡ version_of (lines_of text.now) }
    ensures exact { result ≡ bounds_reason text.now k }
{
    if k <= 1 {
        let layouts = version.layouts();
        head_reason(
            field_of(text, 1, layouts.common),
            field_of(text, 1, layouts.run),
        )
    } else {
        string_reason(k as u64 - 1, string_of(text, k, version))
    }
}

// Of 3 to 6 and 8: by numbers that the version's frames say.
fn framed_reason(text: &[u8], fault: Fault, k: usize, version: Version) -> Reason
    requires { meant_by version ≡ version_of (lines_of text.now) }
    ensures exact { result ≡ framed_reason text.now (fault_number fault) k }
{
    let n = field_of(text, 1, HEADER_COUNT);
    match fault {
        Fault::FrameWrong => frame_reason(text, version, n, k),
        Fault::StringCount => Reason::StringsOut { n },
        Fault::OutOfBounds => bounds_reason(text, k, version),
        Fault::MultipleOver => multiple_reason(text, version),
        _ => release_reason(text, k, version),
    }
}

// The reason of a fault at line k.
fn reason_for(text: &[u8], fault: Fault, k: usize) -> Reason
    ensures exact { result ≡ reason_for text.now fault k }
{
    match fault {
        Fault::TextTooLong => Reason::TooLong,
        Fault::LineMalformed => malformed_reason(line_in(text, k)),
        Fault::ReleaseTooMany => Reason::OverThousand,
        _ => framed_reason(text, fault, k, version_of(text)),
    }
}

// The line of a refused text's refusal, with its reason; a page without a text where it is lawful. The text is lent and keeps its bytes.
pub fn refusal_line(text: &[u8]) -> Page
    ensures exact { result ≡ page_of (refusal_text text.now) }
    ensures kept { text.exit.now ≡ text.entry.now }
{
    match reading::read(text) {
        Ok(_) => blank(),
        Err(refusal) => reason_line(
            refusal.fault,
            refusal.at,
            reason_for(text, refusal.fault, refusal.at),
        ),
    }
}
