// Refusal 6: the string at which H passes 100,000, and the largest smaller T of it that fits.
ghost use Rattle.std.specs.Prelude.{◌≡◌, ◌≤◌, ◌<◌, ltb, length, get_or};
ghost use Rattle.rules.specs.Plan.{multiple_of, no_string};
ghost use Rattle.rules.specs.Text.{lines_of};
ghost use Rattle.layouts.specs.inner.Versions.{meant_by};
ghost use Rattle.naming.specs.Periods.{plan_named, first_to, retimed, multiple_fits, over_place, smaller_fit, multiple_reason};

use super::said::{field_of, string_of};
use bounds::multiple;
use days::Length;
use layouts::{HEADER_COUNT, Version};
use lines::Reason;
use rules::{BatteryString, NO_STRING, Plan};

// How many strings count: n, or ten where it is more.
#[tactic(auto, unfolding(crate::specs::Periods::plan_named, rules::specs::Text::n_in))]
fn counted_in(text: &[u8], version: Version) -> usize
    ensures exact { result ≡ (plan_named (meant_by version) (lines_of text.now)).n }
{
    field_of(text, 1, HEADER_COUNT).min(10) as usize
}

// The strings of a text as a plan.
fn plan_named(text: &[u8], version: Version) -> Plan
    ensures exact { result ≡ plan_named (meant_by version) (lines_of text.now) }
{
    let n = counted_in(text, version);
    let mut strings = [NO_STRING; 10];
    for i in 0..n {
        strings[i] = string_of(text, i + 2, version);
    }
    Plan {
        n,
        run: Length(0),
        strings,
    }
}

// Whether H of the first i strings is over 100,000.
fn over_with(p: Plan, i: usize) -> bool
    ensures exact { result ≡ ltb 100000 (multiple_of (first_to p i)) }
{
    100000 < multiple(Plan { n: i, ..p })
}

// The first place at which it is.
fn over_place(p: Plan) -> usize
    requires { p.n ≤ 10 }
    ensures exact { result ≡ over_place p }
{
    let n = p.n;
    let mut i: usize = 1;
    while i <= n {
        if over_with(p, i) {
            return i;
        }
        i += 1;
    }
    i
}

// Whether H of the first strings fits where the T of the last of them is t.
#[tactic(auto, unfolding(crate::specs::Periods::multiple_fits))]
fn fits_with(p: Plan, i: usize, t: u32) -> bool
    requires { (1 ≤ i) × (i ≤ 10) × (length p.strings ≡ 10) }
    ensures exact { result ≡ multiple_fits p i t }
{
    let mut strings = p.strings;
    strings[i - 1] = BatteryString {
        t: Length(t),
        ..strings[i - 1]
    };
    multiple(Plan { n: i, strings, ..p }) <= 100000
}

// The largest T of the string at place i below its own, and not below its D, that does; 0 where none does.
fn smaller_fit(p: Plan, i: usize) -> u32
    requires { (1 ≤ i) × (i ≤ 10) × (length p.strings ≡ 10) }
    ensures exact { result ≡ smaller_fit p i }
{
    let strings = p.strings;
    let s = strings[i - 1];
    let d = s.d.0;
    let mut t = s.t.0;
    while 1 < t {
        t -= 1;
        if t < d {
            return 0;
        }
        if fits_with(p, i, t) {
            return t;
        }
    }
    0
}

pub(crate) fn multiple_reason(text: &[u8], version: Version) -> Reason
    ensures exact { result ≡ multiple_reason (plan_named (meant_by version) (lines_of text.now)) }
{
    let p = plan_named(text, version);
    let i = over_place(p);
    if 10 < i {
        return Reason::NoneFits {
            place: i as u64,
            t: 0,
            d: 0,
        };
    }
    let s = p.strings[i - 1];
    let smaller = smaller_fit(p, i);
    if smaller == 0 {
        return Reason::NoneFits {
            place: i as u64,
            t: s.t.0 as u64,
            d: s.d.0 as u64,
        };
    }
    Reason::Fits {
        place: i as u64,
        t: s.t.0 as u64,
        smaller: smaller as u64,
    }
}
