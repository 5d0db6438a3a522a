// Hexadecimal digits, and the numbers that fields of a frame say, high byte first.
ghost use Rattle.std.specs.Prelude.{◌≡◌, ◌+◌, ◌*◌, ◌<◌, ◌≤◌, length, slice_index, unwrap_or, IfSome, not, position};
ghost use Rattle.rules.specs.Text.{digit_of};
ghost use Rattle.reading.specs.inner.Positions.{is_digit, digits_ahead, byte_in, number_in};

use layouts::Field;

// The value of a lowercase hexadecimal digit.
#[tactic(auto, unfolding(rules::specs::Text::digit_of))]
fn digit(b: u8) -> Option<u32>
    ensures exact { unwrap_or result 16 ≡ digit_of b }
    ensures within { IfSome result (λ d. d < 16) }
{
    match b {
        b'0'..=b'9' => Some((b - b'0') as u32),
        b'a'..=b'f' => Some((b - b'a') as u32 + 10),
        _ => None,
    }
}

fn is_digit(b: u8) -> bool
    ensures exact { result ≡ is_digit b }
{
    digit(b).is_some()
}

// Where the first byte stands that is no digit.
fn first_other(bytes: &[u8]) -> Option<usize>
    ensures exact { result ≡ position (λ b. not (is_digit b)) bytes.now }
{
    bytes.iter().position(|b| !is_digit(*b))
}

// How many digits stand ahead, one after the other.
pub(crate) fn digits_ahead(line: &[u8]) -> usize
    ensures exact { result ≡ digits_ahead line.now }
{
    first_other(line).unwrap_or(line.len())
}

// The byte that two digits write.
fn byte_at(frame: &[u8], at: usize) -> u32
    requires inside { at + 1 < length frame.now }
    requires high { digit_of (slice_index frame.now at) < 16 }
    requires low { digit_of (slice_index frame.now (at + 1)) < 16 }
    ensures exact { result ≡ byte_in frame.now at }
{
    digit(frame[at]).unwrap() * 16 + digit(frame[at + 1]).unwrap()
}

// The number that a field says of a frame, which starts the text.
pub(crate) fn field_of(frame: &[u8], field: Field) -> u32
    requires inside { (field.at + field.size) * 2 ≤ digits_ahead frame.now }
    requires short { field.size ≤ 4 }
    ensures exact { result ≡ number_in frame.now 0 field.at field.size }
{
    let mut number = 0;
    for i in 0..field.size {
        number = number * 256 + byte_at(frame, (field.at + i) * 2);
    }
    number
}
