// The releases that make a plan miss a deadline, as the text of a plan in the caller's page.
#![tactic(auto)]

ghost use Rattle.std.specs.Prelude.{◌≡◌};
ghost use Rattle.rules.specs.Layout.{version03};
ghost use Rattle.writing.specs.Saved.{saved_answer, saved_page};
ghost use Rattle.rules.specs.Plan.{with_run};
ghost use Rattle.tries.specs.Tries.{missing_answer};
ghost use Rattle.missed.specs.Missed.{as_saved, put_answer, put_page, missed_answer, missed_page};

use days::Length;
use faults::Refusal;
use rules::{Plan, Releases};
use tries::Missing;

// That the plan passes, so that there is nothing to show; or that it fails and yet no list misses; or that no list was found; or that there
// is one, but of more than 1,000 releases; or the length of the text that was written.
#[derive(Clone, Copy)]
pub enum Missed {
    Passes,
    Never,
    NoneFound,
    TooMany,
    Text { length: usize },
}

// The plan with N raised and the list, written into the page; 9 with 0 where there is no room.
fn show(
    p: Plan,
    run: Length,
    releases: Releases,
    page: &mut [u8],
    at: usize,
) -> Result<Missed, Refusal>
    ensures exact { result ≡ as_saved (saved_answer version03 (with_run p run.0) releases page.old at) }
    ensures page { page.new ≡ saved_page version03 (with_run p run.0) releases page.old at }
{
    let length = writing::write(p.with_run(run), releases, page, at)?;
    Ok(Missed::Text { length })
}

// What is found for the plan p, shown.
#[tactic(auto, unfolding(crate::specs::Missed::put_answer, crate::specs::Missed::put_page))]
fn put(p: Plan, page: &mut [u8], at: usize) -> Result<Missed, Refusal>
    ensures exact { result ≡ put_answer p page.old at (missing_answer p) }
    ensures page { page.new ≡ put_page p page.old at (missing_answer p) }
{
    match tries::releases_that_miss(p)? {
        Missing::Passes => Ok(Missed::Passes),
        Missing::Never => Ok(Missed::Never),
        Missing::NoneFound => Ok(Missed::NoneFound),
        Missing::TooMany => Ok(Missed::TooMany),
        Missing::Found { run, releases } => show(p, run, releases, page, at),
    }
}

// The text of a plan, as the text of the same plan with releases over which it misses: it goes into the page from `at` on. 1 to 8 as the
// reader finds them, then 9 with 0 where there is no room; but for a text that is written, no byte of the page is another. The text that
// is lent keeps its bytes.
#[tactic(auto, unfolding(crate::specs::Missed::missed_answer, crate::specs::Missed::missed_page))]
pub fn miss(text: &[u8], page: &mut [u8], at: usize) -> Result<Missed, Refusal>
    ensures exact { result ≡ missed_answer text.now page.old at }
    ensures page { page.new ≡ missed_page text.now page.old at }
    ensures kept { text.exit.now ≡ text.entry.now }
{
    let file = reading::read(text)?;
    put(file.plan, page, at)
}
