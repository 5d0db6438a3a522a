// Visit texts: a line for each visit, three numbers of at most seven digits.
ghost use Rattle.std.specs.Prelude.{◌≡◌};
ghost use Rattle.visits.specs.Texts.{visit_said, visit_text_check, visit_files_check};

use super::Visit;
use super::book::Book;
use days::{Day, Length};
use faults::{Checked, Fault, Refusal};
use register::three_at;
use rules::{Plan, PlanFile, Releases};

// Release, first day, length.
#[tactic(auto, unfolding(crate::specs::Texts::visit_said))]
fn visit_from(numbers: [u32; 3]) -> Visit
    ensures exact { result ≡ visit_said numbers }
{
    let [release, first, length] = numbers;
    Visit {
        release,
        first: Day(first),
        length: Length(length),
    }
}

// Whether a visit text keeps every rule: 4 to 8 on the plan and its releases; 1 with 0 for a text of over 65,536 bytes; 13 with the first
// line that is not three numbers, whatever those before it break; then 14 and 15. The text is lent and keeps its bytes.
pub fn check_visit_text(p: Plan, rs: Releases, text: &[u8]) -> Checked
    ensures exact { result ≡ visit_text_check p rs text.now }
    ensures kept { text.exit.now ≡ text.entry.now }
{
    let mut book = Book::opened(p, rs)?;
    if 65536 < text.len() {
        return Err(Refusal {
            fault: Fault::TextTooLong,
            at: 0,
        });
    }
    let mut broken = Ok(());
    let mut line: usize = 0;
    let mut at: usize = 0;
    // the reader says where the next line starts
    while at < text.len() {
        let read = three_at(text, at);
        line += 1;
        let Some(numbers) = read.numbers else {
            return Err(Refusal {
                fault: Fault::RowMalformed,
                at: line,
            });
        };
        // once a rule is broken, the lines are still read
        if broken.is_ok() {
            broken = book.visited(visit_from(numbers), line);
        }
        at = read.next;
    }
    broken?;
    book.sums_checked()
}

// The same for a plan file: 1 to 8 as in reading it come first. Both texts are lent and keep their bytes.
pub fn check_visit_files(plan: &[u8], visits: &[u8]) -> Checked
    ensures exact { result ≡ visit_files_check plan.now visits.now }
    ensures kept { (plan.exit.now ≡ plan.entry.now) × (visits.exit.now ≡ visits.entry.now) }
{
    let PlanFile {
        plan: p,
        releases: rs,
    } = reading::read(plan)?;
    check_visit_text(p, rs, visits)
}
