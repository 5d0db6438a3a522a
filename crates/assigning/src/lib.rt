// The plan of a text with the set that the search finds, as the text of a plan in the caller's page.
#![tactic(auto)]

ghost use Rattle.std.specs.Prelude.{◌≡◌};
ghost use Rattle.rules.specs.Layout.{version03};
ghost use Rattle.rules.specs.Search.{with_set};
ghost use Rattle.rules.specs.Refusal.{search_answer};
ghost use Rattle.writing.specs.Saved.{saved_answer, saved_page};
ghost use Rattle.assigning.specs.Assigned.{wrote_set, set_answered, set_page, assigned_answer, assigned_page};

use faults::Refusal;
use rules::{Plan, PlanFile, Releases};
use verdict::{search, with_set};

// What the search finds for the plan of the file, written; none where no set passes, so that there is nothing to write.
#[tactic(auto, unfolding(crate::specs::Assigned::set_answered, crate::specs::Assigned::set_page))]
fn put(file: PlanFile, page: &mut [u8], at: usize) -> Result<Option<usize>, Refusal>
    ensures exact { result ≡ set_answered file.plan file.releases page.old at (search_answer file.plan) }
    ensures page { page.new ≡ set_page file.plan file.releases page.old at (search_answer file.plan) }
{
    let Some(set) = search(file.plan)? else {
        return Ok(None);
    };
    let length = writing::write(with_set(file.plan, set), file.releases, page, at)?;
    Ok(Some(length))
}

// The text of a plan, as the text of the same plan and releases with the set that the search finds in place of its own permissions: it goes
// into the page from `at` on, and its length is answered; nothing is written where no set passes. 1 to 8 as the reader finds them, then 9
// with 0 where there is no room; but for a text that is written, no byte of the page is another. The text that is lent keeps its bytes.
pub fn assign(text: &[u8], page: &mut [u8], at: usize) -> Result<Option<usize>, Refusal>
    ensures exact { result ≡ assigned_answer text.now page.old at }
    ensures page { page.new ≡ assigned_page text.now page.old at }
    ensures kept { text.exit.now ≡ text.entry.now }
{
    put(reading::read(text)?, page, at)
}
