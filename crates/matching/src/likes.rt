// Strings that are alike, counted and by place.
ghost use Rattle.std.specs.Prelude.{◌≡◌, ◌<◌, length, get_or, IfSome};
ghost use Rattle.std.specs.List.{count_by, filter, range_with_len, slice_get};
ghost use Rattle.rules.specs.Plan.{no_string};
ghost use Rattle.results.specs.Partners.{alike};

use rules::BatteryString;

// Whether all six numbers are the same. By hand, since `BatteryString` of the rules derives no equality.
#[tactic(auto, unfolding(results::specs::Partners::alike))]
fn are_alike(s: BatteryString, u: BatteryString) -> bool
    ensures exact { result ≡ alike s u }
{
    s.t == u.t && s.c == u.c && s.d == u.d && s.x == u.x && s.a == u.a && s.j == u.j
}

// How many of the strings are like s.
pub(crate) fn likes_among(strings: &[BatteryString], s: BatteryString) -> usize
    ensures exact { result ≡ count_by (alike s) strings.now }
{
    strings.iter().filter(|u| are_alike(s, **u)).count()
}

// Where, counted from 0 among the strings, the one like s stands that as many others like it stand ahead of.
pub(crate) fn index_like(strings: &[BatteryString], s: BatteryString, ahead: usize) -> Option<usize>
    ensures exact { result ≡ slice_get
        (filter (λ i. alike s (get_or strings.now i no_string)) (range_with_len 0 (length strings.now))) ahead }
    ensures inside { IfSome result (λ i. i < length strings.now) }
{
    (0..strings.len())
        .filter(|i| are_alike(s, strings[*i]))
        .nth(ahead)
}
