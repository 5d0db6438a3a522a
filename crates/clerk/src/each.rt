// `each [COMMANDS]`: every line of a file is a command, its words between single spaces. Each is repeated, and its answer follows.
ghost use Rattle.std.specs.Prelude.{◌≤◌};

use super::commands::Command;
use super::files::read_by;
use super::outside::write;
use super::plans::name_in;
use super::say;
use super::words::answer;
use doors::{Stop, worse};

pub(crate) fn each(rt: &HostRuntime, command: Command) -> Result<(), Stop> {
    let mut text = [0u8; 65537];
    let count = read_by(rt, name_in(rt, command, b"each [COMMANDS]")?, &mut text)?;
    if 65536 < count {
        return Err(say::complain(rt, b"the commands have more than 65536 bytes"));
    }
    answer_lines(rt, &mut text, count)
}

// The lines among the first `count` bytes, of which the last may lack its end, up to the first answer that cannot be written.
fn answer_lines(rt: &HostRuntime, text: &mut [u8; 65537], count: usize) -> Result<(), Stop>
    requires { count ≤ 65536 }
{
    let mut end = count;
    if 0 < count && text[count - 1] != b'\n' {
        text[count] = b'\n';
        end = count + 1;
    }
    let mut ended = Ok(());
    for line in text[..end].split_inclusive_mut(|b| *b == b'\n') {
        ended = worse(ended, answer_line(rt, line));
        if ended >= Err(Stop::Unwritten) {
            return ended;
        }
    }
    ended
}

// A line is repeated, and then a command: a 0 for each space, and for the line's end.
fn answer_line(rt: &HostRuntime, line: &mut [u8]) -> Result<(), Stop> {
    write(rt, line)?;
    for b in line.iter_mut() {
        if matches!(*b, b' ' | b'\n') {
            *b = 0;
        }
    }
    answer(rt, Command { words: line })
}
