// What the lines of a text say. Nothing is asked of the text: a line that it does not have is empty, and a field beyond a line's end
// says 0.
ghost use Rattle.std.specs.Prelude.{◌≡◌, cond, ◌+◌, ◌*◌, ◌^◌, ◌≤◌, eqb, length, drop};
ghost use Rattle.rules.specs.Text.{lines_of, digit_of, cost_of, string_of, version_of};
ghost use Rattle.layouts.specs.inner.Versions.{meant_by};
ghost use Rattle.naming.specs.Lines.{line_no};
ghost use Rattle.naming.specs.inner.Bytes.{head_bytes, number_at};

use days::Length;
use layouts::{Field, HEADER_NUMBER, STRING_C, STRING_D, STRING_T, STRING_X, Version, held_to};
use rules::BatteryString;

// The value of a small hexadecimal digit, or 16 for any other byte.
pub(crate) fn digit(b: u8) -> u64
    ensures exact { result ≡ digit_of b }
{
    let v = b as u64;
    if v < 48 {
        return 16;
    }
    if v <= 57 {
        return v - 48;
    }
    if v < 97 {
        return 16;
    }
    if v <= 102 {
        return v - 87;
    }
    16
}

// How many lines a byte ends.
fn ends(b: u8) -> usize
    ensures exact { result ≡ cond (eqb b 10) 1 0 }
{
    if b == 10 { 1 } else { 0 }
}

// Where line k starts.
fn line_start(text: &[u8], k: usize) -> usize
    ensures exact { line_no (lines_of (drop result text.now)) 1 ≡ line_no (lines_of text.now) k }
    ensures inside { result ≤ length text.now }
{
    let mut at: usize = 0;
    let mut left = k;
    while 1 < left {
        if text.len() <= at {
            return at;
        }
        let b = text[at];
        left -= ends(b);
        at += 1;
    }
    at
}

// Where the line ends that starts at `at`.
fn line_end(text: &[u8], at: usize) -> usize
    requires { at ≤ length text.now }
    ensures exact { result ≡ at + length (head_bytes (drop at text.now)) }
    ensures inside { result ≤ length text.now }
{
    let mut end = at;
    while end < text.len() {
        let b = text[end];
        if b == 10 {
            return end;
        }
        end += 1;
    }
    end
}

// Line k without its 0a.
pub(crate) fn line_in(text: &[u8], k: usize) -> &[u8]
    ensures exact { result.now ≡ (line_no (lines_of text.now) k).bytes }
{
    let start = line_start(text, k);
    let end = line_end(text, start);
    &text[start..end]
}

// The number that so many bytes of a line's frame write, after others.
pub(crate) fn number_in(line: &[u8], at: usize, size: usize) -> u64
    requires { (at ≤ 60) × (size ≤ 4) }
    ensures exact { result ≡ number_at line.now at size }
    ensures small { result + 2 ≤ 2 * 256 ^ size }
{
    let end = at + size;
    let mut v: u64 = 0;
    let mut i = at;
    while i < end {
        if line.len() <= 2 * i + 1 {
            return v;
        }
        let high = line[2 * i];
        let low = line[2 * i + 1];
        v = v * 256 + (digit(high) * 16 + digit(low));
        i += 1;
    }
    v
}

// The number that a field of line k says.
pub(crate) fn field_of(text: &[u8], k: usize, field: Field) -> u64
    requires { (field.at ≤ 60) × (field.size ≤ 4) }
    ensures exact { result ≡ number_at (line_no (lines_of text.now) k).bytes field.at field.size }
    ensures small { result + 2 ≤ 2 * 256 ^ field.size }
{
    let line = line_in(text, k);
    number_in(line, field.at, field.size)
}

// The version that a text is held to.
pub(crate) fn version_of(text: &[u8]) -> Version
    ensures exact { meant_by result ≡ version_of (lines_of text.now) }
{
    held_to(field_of(text, 1, HEADER_NUMBER) as u32)
}

// The moving cost of the string on line k: the header's where it says one for all, else its own.
fn cost_of(text: &[u8], k: usize, version: Version) -> u32
    ensures exact { result ≡ cost_of (meant_by version) (line_no (lines_of text.now) 1)
        (line_no (lines_of text.now) k) }
{
    let layouts = version.layouts();
    if 0 < layouts.common.size {
        field_of(text, 1, layouts.common) as u32
    } else {
        field_of(text, k, layouts.own) as u32
    }
}

// The string on line k.
pub(crate) fn string_of(text: &[u8], k: usize, version: Version) -> BatteryString
    ensures exact { result ≡ string_of (meant_by version) (line_no (lines_of text.now) 1)
        (line_no (lines_of text.now) k) }
{
    let x = field_of(text, k, STRING_X) as u32;
    let t = Length(field_of(text, k, STRING_T) as u32);
    let c = Length(field_of(text, k, STRING_C) as u32);
    let d = Length(field_of(text, k, STRING_D) as u32);
    let a = Length(cost_of(text, k, version));
    let j = Length(field_of(text, k, version.layouts().late) as u32);
    BatteryString { t, c, d, x, a, j }
}
