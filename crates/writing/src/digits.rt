// Numbers as hexadecimal digits, at the head of a lent part of the page. What stands behind them stays.
ghost use Rattle.std.specs.Prelude.{◌≡◌, [], ◌∷◌, ◌++◌, ◌*◌, ◌≤◌, ◌<◌, length, drop};
ghost use Rattle.writing.specs.Written.{digit_text, byte_text};
ghost use Rattle.writing.specs.inner.Cells.{number_text};

#[tactic(auto, unfolding(crate::specs::Written::digit_text))]
fn digit(v: u8) -> u8
    requires { v < 16 }
    ensures exact { result ≡ digit_text v }
{
    if v < 10 { b'0' + v } else { b'a' + (v - 10) }
}

// Two digits for a byte.
pub(crate) fn put_byte(part: &mut [u8], b: u8)
    requires { 2 ≤ length part.old }
    ensures exact { part.new ≡ byte_text b ++ drop 2 part.old }
{
    part[0] = digit(b / 16);
    part[1] = digit(b % 16);
}

// A number in `size` bytes, high byte first.
pub(crate) fn put_number(part: &mut [u8], size: usize, n: u32)
    requires few { size ≤ 4 }
    requires room { size * 2 ≤ length part.old }
    ensures exact { part.new ≡ number_text size n ++ drop (size * 2) part.old }
{
    let bytes = n.to_be_bytes();
    for (i, b) in bytes[4 - size..].iter().enumerate() {
        put_byte(&mut part[i * 2..], *b);
    }
}

// The end of a line.
pub(crate) fn put_end(part: &mut [u8])
    requires { 1 ≤ length part.old }
    ensures exact { part.new ≡ (0x0a ∷ []) ++ drop 1 part.old }
{
    part[0] = b'\n';
}
