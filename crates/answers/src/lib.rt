// A plan file in, its answer out: the refusal, or verdict, search and run.
#![tactic(auto)]

ghost use Rattle.std.specs.Prelude.{◌≡◌};
ghost use Rattle.rules.specs.Answer.{answer_of};

use faults::Refusal;
use rules::Answers;

// The verdict and the run use the X in the plan, not the set found. The text is lent and keeps its bytes. What is read lawfully none of
// the three refuses.
pub fn answer(text: &[u8]) -> Result<Answers, Refusal>
    ensures exact { result ≡ answer_of text.now }
    ensures kept { text.exit.now ≡ text.entry.now }
{
    let file = reading::read(text)?;
    Ok(Answers {
        verdict: verdict::verdict(file.plan)?,
        assign: verdict::search(file.plan)?,
        outcome: run::run(file.plan, file.releases)?,
    })
}
