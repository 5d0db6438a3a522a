// Refusal 8: which of its reasons.
ghost use Rattle.std.specs.Prelude.{◌≡◌, ◌+◌, ◌≤◌};
ghost use Rattle.rules.specs.Text.{lines_of, n_in, due_in};
ghost use Rattle.layouts.specs.inner.Versions.{meant_by};
ghost use Rattle.naming.specs.Lines.{line_no};
ghost use Rattle.naming.specs.Released.{day_of_ahead, day_reason, release_reason};
ghost use Rattle.naming.specs.inner.Bytes.{last_in};

use super::said::{field_of, string_of};
use layouts::{HEADER_COUNT, RELEASE_DAY, RELEASE_NEED, RELEASE_PLACE, Version};
use lines::Reason;
use rules::BatteryString;

// The due day that line k says: its day where it says none.
fn due_of(text: &[u8], k: usize, version: Version) -> u64
    ensures exact { result ≡ due_in (meant_by version) (line_no (lines_of text.now) k) }
    ensures small { result ≤ 8589934592 }
{
    let due = version.layouts().due;
    if 0 < due.size {
        field_of(text, k, due)
    } else {
        field_of(text, k, RELEASE_DAY)
    }
}

// The day of the release on the line ahead of line k; 0 where none is ahead.
fn day_ahead(text: &[u8], n: usize, k: usize, version: Version) -> u64
    requires n_bound { n ≤ 1000 }
    ensures exact { result ≡ day_of_ahead (meant_by version) (lines_of text.now) n k }
{
    if k <= n + 2 {
        return 0;
    }
    field_of(text, k - 1, RELEASE_DAY)
}

// The last release line ahead of line k with this place; 0 where none is.
fn last_line(text: &[u8], n: usize, k: usize, place: u64) -> usize
    requires { n ≤ 1000 }
    ensures exact { result ≡ last_in (lines_of text.now) n k place }
{
    let mut j = k;
    while n + 2 < j {
        j -= 1;
        if field_of(text, j, RELEASE_PLACE) == place {
            return j;
        }
    }
    0
}

// A release whose place, need and day are in bounds.
#[tactic(auto, unfolding(crate::specs::Released::day_reason))]
fn day_reason(s: BatteryString, day: u64, due: u64, ahead: u64, last: u64) -> Reason
    requires { due ≤ 8589934592 }
    ensures exact { result ≡ day_reason s day due ahead last }
{
    let j = u64::from(s.j.0);
    if day < ahead {
        Reason::OutOfOrder { day, ahead }
    } else if day < due {
        Reason::BeforeDue { day, due }
    } else if due + j < day {
        Reason::TooLate { day, j, due }
    } else {
        Reason::TooClose {
            due,
            t: u64::from(s.t.0),
            last,
        }
    }
}

pub(crate) fn release_reason(text: &[u8], k: usize, version: Version) -> Reason
    ensures exact { result ≡ release_reason (meant_by version) (lines_of text.now) k }
{
    let n = field_of(text, 1, HEADER_COUNT);
    let place = field_of(text, k, RELEASE_PLACE);
    if place < 1 {
        return Reason::PlaceOut { place, n };
    }
    if n < place {
        return Reason::PlaceOut { place, n };
    }
    let s = string_of(text, place as usize + 1, version);
    let need = field_of(text, k, RELEASE_NEED);
    let c = s.c.0 as u64;
    if need < 1 {
        return Reason::NeedOut { place, need, c };
    }
    if c < need {
        return Reason::NeedOut { place, need, c };
    }
    let run = field_of(text, 1, version.layouts().run);
    let day = field_of(text, k, RELEASE_DAY);
    if run <= day {
        return Reason::AfterRun { day, run };
    }
    let ahead = day_ahead(text, n as usize, k, version);
    let last = last_line(text, n as usize, k, place);
    let due = due_of(text, k, version);
    day_reason(s, day, due, ahead, due_of(text, last, version))
}
