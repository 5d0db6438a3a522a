// A string as a row of the asset register's table, and a visit as a line of the contractor's list.
ghost use Rattle.std.specs.Prelude.{◌≡◌};
ghost use Rattle.rules.specs.Lines.{row_line};
ghost use Rattle.lines.specs.Pages.{page_of};
ghost use Rattle.lines.specs.Visits.{visit_line};

use super::Page;
use super::templates::lone_line;
use days::{Day, Length};
use rules::BatteryString;

#[tactic(auto, unfolding(rules::specs::Lines::bytes_of, rules::specs::Lines::row_line))]
pub fn row_line(s: BatteryString) -> Page
    ensures exact { result ≡ page_of (row_line s) }
{
    lone_line(
        b"#,#,#,#,#,#\r\n",
        &[
            s.t.0 as u64,
            s.c.0 as u64,
            s.d.0 as u64,
            s.x as u64,
            s.a.0 as u64,
            s.j.0 as u64,
        ],
    )
}

// The release that a visit serves, its first day and its length.
#[tactic(auto, unfolding(rules::specs::Lines::bytes_of, crate::specs::Visits::visit_line))]
pub fn visit_line(release: u32, first: Day, days: Length) -> Page
    ensures exact { result ≡ page_of (visit_line release first.0 days.0) }
{
    lone_line(
        b"#,#,#\r\n",
        &[release as u64, first.0 as u64, days.0 as u64],
    )
}
