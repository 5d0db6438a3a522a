// The rows of a plan, one after the other: each is lent the next part of the page.
ghost use Rattle.std.specs.Prelude.{◌≡◌, ◌++◌, ◌≤◌, length, drop};
ghost use Rattle.register.specs.Export.{table_text};

use lines::{put_text, row_line};
use rules::Plan;

// How many bytes they take.
pub(crate) fn rows_length(p: Plan) -> usize
    requires { p.n ≤ 10 }
    ensures exact { result ≡ length (table_text p) }
{
    let mut length = 0;
    for s in &p.strings[..p.n] {
        length += row_line(*s).len;
    }
    length
}

pub(crate) fn put_rows(part: &mut [u8], p: Plan)
    requires n_bound { p.n ≤ 10 }
    requires p_in_bounds { length (table_text p) ≤ length part.old }
    ensures exact { part.new ≡ table_text p ++ drop (length (table_text p)) part.old }
{
    let mut at = 0;
    for s in &p.strings[..p.n] {
        let row = row_line(*s);
        at += put_text(&row.bytes[..row.len], &mut part[at..]);
    }
}
