// Refusal 5: which number is outside its bounds.
ghost use Rattle.std.specs.Prelude.{◌≡◌};
ghost use Rattle.naming.specs.Outside.{head_reason, work_reason, rest_reason, string_reason};

use lines::Reason;
use rules::BatteryString;

// Of a header: the moving cost of all strings, then N.
#[tactic(auto, unfolding(crate::specs::Outside::head_reason))]
pub(crate) fn head_reason(a: u64, run: u64) -> Reason
    ensures exact { result ≡ head_reason a run }
{
    if 1000 < a {
        Reason::CommonCostOut { a }
    } else {
        Reason::RunOut { run }
    }
}

// Work that does not fit.
#[tactic(auto, unfolding(crate::specs::Outside::work_reason))]
fn work_reason(place: u64, c: u64, d: u64, j: u64) -> Reason
    ensures exact { result ≡ work_reason place c d j }
{
    if j == 0 {
        Reason::WorkOut { place, c, d }
    } else {
        Reason::LateWorkOut { place, c, d, j }
    }
}

// C, then X, then the moving cost, where D and J are within their bounds.
#[tactic(auto, unfolding(crate::specs::Outside::rest_reason))]
fn rest_reason(place: u64, s: BatteryString) -> Reason
    ensures exact { result ≡ rest_reason place s }
{
    let c = u64::from(s.c.0);
    let d = u64::from(s.d.0);
    let j = u64::from(s.j.0);
    let x = u64::from(s.x);
    if c == 0 {
        Reason::NoWork { place }
    } else if d < c + j {
        work_reason(place, c, d, j)
    } else if 1 < x {
        Reason::PermissionOut { place, x }
    } else {
        Reason::CostOut {
            place,
            a: u64::from(s.a.0),
        }
    }
}

// Of a string: T, D, J, then the rest.
#[tactic(auto, unfolding(crate::specs::Outside::string_reason))]
pub(crate) fn string_reason(place: u64, s: BatteryString) -> Reason
    ensures exact { result ≡ string_reason place s }
{
    let t = u64::from(s.t.0);
    let d = u64::from(s.d.0);
    let j = u64::from(s.j.0);
    if !(1..=1000).contains(&t) {
        Reason::PeriodOut { place, t }
    } else if !(1..=t).contains(&d) {
        Reason::DueOut { place, d, t }
    } else if d <= j {
        Reason::LateOut { place, j, d }
    } else {
        rest_reason(place, s)
    }
}
