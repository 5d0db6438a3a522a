// Whether a version can say a plan: version 01 has one moving cost for all strings.
ghost use Rattle.std.specs.Prelude.{◌≡◌, ◌≤◌, not, eqb, get_or, position, IfSome, ◌<◌};
ghost use Rattle.rules.specs.Plan.{strings_of};
ghost use Rattle.layouts.specs.inner.Versions.{meant_by};
ghost use Rattle.writing.specs.Saved.{alike_check, first_other, writable_check};
ghost use Rattle.writing.specs.inner.Costs.{other_than_first};

use faults::{Checked, Fault, Refusal};
use layouts::Version;
use rules::{Plan, Releases};

// Where the first string stands, counted from 0, that has another moving cost than the string at place 1.
fn first_other(p: Plan) -> Option<usize>
    ensures exact { result ≡ position (other_than_first p) (strings_of p) }
    ensures within { IfSome result (λ i. i < p.n) }
{
    let first = p.strings[0].a;
    p.strings.iter().take(p.n).position(|s| s.a != first)
}

// 12 with its place, where the header says one moving cost for all strings.
fn alike_check(p: Plan, version: Version) -> Checked
    requires { (1 ≤ p.n) × (p.n ≤ 10) }
    ensures exact { result ≡ alike_check (meant_by version) (first_other p) p }
{
    if version.layouts().common.size == 0 {
        return Ok(());
    }
    match first_other(p) {
        Some(i) => Err(Refusal {
            fault: Fault::CostsDiffer,
            at: i + 1,
        }),
        None => Ok(()),
    }
}

// 4 to 8 as for numbers, then 12.
#[tactic(auto, unfolding(crate::specs::Saved::writable_check))]
pub(crate) fn writable_check(p: Plan, rs: Releases, version: Version) -> Checked
    ensures exact { result ≡ writable_check (meant_by version) p rs }
{
    bounds::run_check(p, rs)?;
    alike_check(p, version)
}
