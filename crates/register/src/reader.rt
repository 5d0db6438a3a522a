// A reader that holds on to the caller's text and its place in it, and is asked row by row.
ghost use Rattle.std.specs.Prelude.{◌≡◌, ◌≤◌};
ghost use Rattle.register.specs.Table.{string_said};
ghost use Rattle.register.specs.Reader.{line_read_at, row_at};

use super::fields::{numbers_in, place_of};
use super::{Export, LineRead, Row};
use days::Length;
use rules::BatteryString;

// T, C, D, X, moving cost, J.
#[tactic(auto, unfolding(crate::specs::Table::string_said))]
fn string_from(numbers: [u32; 6]) -> BatteryString
    ensures exact { result ≡ string_said numbers }
{
    let [t, c, d, x, a, j] = numbers;
    BatteryString {
        t: Length(t),
        c: Length(c),
        d: Length(d),
        x,
        a: Length(a),
        j: Length(j),
    }
}

// The line that starts at a place of a text: it ends by CR LF, and so many numbers of so many digits stand ahead of that.
fn line_at<const N: usize>(text: &[u8], at: usize, most: usize) -> LineRead<[u32; N]>
    requires { most ≤ 9 }
    ensures exact { result ≡ line_read_at N most text.now at }
{
    let Some(rest) = text.get(at..) else {
        return LineRead {
            numbers: None,
            next: at,
        };
    };
    let Some(end) = place_of(b'\n', rest) else {
        return LineRead {
            numbers: None,
            next: text.len(),
        };
    };
    let numbers = match rest[..end].strip_suffix(b"\r") {
        Some(row) => numbers_in(row, most),
        None => None,
    };
    LineRead {
        numbers,
        next: at + end + 1,
    }
}

// A line of three numbers of at most seven digits. The text is lent and keeps its bytes.
pub fn three_at(text: &[u8], at: usize) -> LineRead<[u32; 3]>
    ensures exact { result ≡ line_read_at 3 7 text.now at }
    ensures kept { text.exit.now ≡ text.entry.now }
{
    line_at(text, at, 7)
}

// The row that starts at a place of a text: six numbers of at most four digits.
pub(crate) fn row_at(text: &[u8], at: usize) -> Row
    ensures exact { result ≡ row_at text.now at }
{
    if text.len() <= at {
        return Row::End;
    }
    let LineRead { numbers, next } = line_at(text, at, 4);
    match numbers {
        Some(numbers) => Row::Says {
            string: string_from(numbers),
            next,
        },
        None => Row::Malformed { next },
    }
}

// A reader of a text, from a place on.
pub fn opened(text: &[u8], at: usize) -> Export<'_>
    ensures exact { (result.text ≡ text.entry) × (result.at ≡ at) }
{
    Export { text, at }
}

// The row at which a reader stands.
pub fn row_here(export: Export<'_>) -> Row
    ensures exact { result ≡ row_at export.entry.text.now export.entry.at }
{
    row_at(export.text, export.at)
}

// The reader at another place: behind a row, at the next one.
pub fn moved(export: Export<'_>, at: usize) -> Export<'_>
    ensures exact { (result.text ≡ export.entry.text) × (result.at ≡ at) }
{
    Export { at, ..export }
}

// The row at a place of a text, by a reader: whoever goes through a whole text asks so.
pub(crate) fn row_from(text: &[u8], at: usize) -> Row
    ensures exact { result ≡ row_at text.now at }
{
    row_here(opened(text, at))
}
