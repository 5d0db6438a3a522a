// Files by name, and standard input.
ghost use Rattle.std.specs.Prelude.{◌≤◌, IfOk, length};

use super::outside::{fill, fill_by};
use super::say::CLERK;
use doors::{Stop, unread};

// The bytes of the file of this name, as many as there is room for; of standard input where that is `-`. What cannot be read is named.
pub(crate) fn read_by(rt: &HostRuntime, name: &[u8], room: &mut [u8]) -> Result<usize, Stop>
    ensures { IfOk result (λ n. n ≤ length room.new) }
{
    if name == b"-".as_slice() {
        return fill(&mut rt.stdin(), room).map_err(|e| unread(rt, CLERK, b"standard input", &e));
    }
    fill_by(rt, name, room).map_err(|e| unread(rt, CLERK, name, &e))
}
