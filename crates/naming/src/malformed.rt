// Refusal 2: what is wrong with the characters of a line.
ghost use Rattle.std.specs.Prelude.{◌≡◌, ◌≤◌, length};
ghost use Rattle.naming.specs.Malformed.{other_at, character_reason, malformed_reason};

use super::said::digit;
use lines::Reason;

// How many digits stand ahead of the first other character.
fn other_at(line: &[u8]) -> usize
    ensures exact { result ≡ other_at line.now }
{
    let mut i: usize = 0;
    while i < line.len() {
        let b = line[i];
        if 16 <= digit(b) {
            return i;
        }
        i += 1;
    }
    i
}

// A character that is no digit, by name.
fn character_reason(character: u64, b: u8) -> Reason
    ensures exact { result ≡ character_reason character b }
{
    if b == 13 {
        return Reason::CarriageReturn { character };
    }
    if b == b' ' {
        return Reason::Space { character };
    }
    if b < b'A' {
        return Reason::NoDigit { character };
    }
    if b'Z' < b {
        return Reason::NoDigit { character };
    }
    Reason::Capital { character }
}

pub(crate) fn malformed_reason(line: &[u8]) -> Reason
    ensures exact { result ≡ malformed_reason line.now }
{
    if line.len() == 0 {
        return Reason::Empty;
    }
    let at = other_at(line);
    if at < line.len() {
        let b = line[at];
        return character_reason(at as u64 + 1, b);
    }
    if line.len() % 2 == 0 {
        return Reason::Unended;
    }
    Reason::OddNumber {
        characters: line.len() as u64,
    }
}
