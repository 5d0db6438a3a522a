// Plan files of version 01 turned into version 02 and back, each as a text in the caller's page.
#![tactic(auto)]

ghost use Rattle.std.specs.Prelude.{◌≡◌, ◌≤◌};
ghost use Rattle.rules.specs.Layout.{version01, version02};
ghost use Rattle.turning.specs.Turned.{line_of, turned_answer, turned_page};

use faults::Refusal;
use rules::PlanFile;

// The line of the string at a place: the header stands ahead of it. 0, for the whole, stays 0.
#[tactic(auto, unfolding(crate::specs::Turned::line_of))]
fn line_of(place: usize) -> usize
    requires { place ≤ 10 }
    ensures exact { result ≡ line_of place }
{
    if place == 0 { 0 } else { place + 1 }
}

// What the writer refuses, with the line of its place.
fn on_line(refusal: Refusal) -> Refusal
    requires { refusal.at ≤ 10 }
    ensures exact { result ≡ record { fault = refusal.fault; at = line_of refusal.at } }
{
    Refusal {
        at: line_of(refusal.at),
        ..refusal
    }
}

// A version 01 text, as version 02: it goes into the page from `at` on. 1 to 8 as the reader finds them, another version among them,
// then 9 with 0; then no byte of the page is another. The text is lent and keeps its bytes.
pub fn to_02(text: &[u8], page: &mut [u8], at: usize) -> Result<usize, Refusal>
    ensures exact { result ≡ turned_answer version01 version02 text.now page.old at }
    ensures page { page.new ≡ turned_page version01 version02 text.now page.old at }
    ensures kept { text.exit.now ≡ text.entry.now }
{
    let PlanFile { plan, releases } = reading::read_01(text)?;
    writing::write_02(plan, releases, page, at).map_err(on_line)
}

// A version 02 text, as version 01: where its moving costs differ, 12 with the line of the first string that differs from place 1,
// after 8 and before 9.
pub fn to_01(text: &[u8], page: &mut [u8], at: usize) -> Result<usize, Refusal>
    ensures exact { result ≡ turned_answer version02 version01 text.now page.old at }
    ensures page { page.new ≡ turned_page version02 version01 text.now page.old at }
    ensures kept { text.exit.now ≡ text.entry.now }
{
    let PlanFile { plan, releases } = reading::read_02(text)?;
    writing::write_01(plan, releases, page, at).map_err(on_line)
}
