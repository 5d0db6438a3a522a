// What the program reads and writes outside. What lies there gives and takes what it likes, so that a contract here speaks of the room and
// of the kind of an end, and of no byte that comes or goes. Each program has these functions of its own, private, since what they give
// follows from no argument; crate `doors` has the same for whoever else opens and writes so.
ghost use Rattle.std.specs.Prelude.{◌≡◌, ◌<◌, ◌≤◌, IfOk, IfErr, length, take};
ghost use Rattle.std.specs.Io.KnownBytes.{Consumes, IsAtEnd};
ghost use Rattle.doors.specs.Stops.{IsUnwritten};

use doors::Stop;
use std::env::FillError;
use std::fs::File;
use std::io::{ErrorKind, Read};
use std::rt::Env;
use std::{io, str};

// Whether the first word is empty. It names no file then: the commands in the top folder start a program so and want the status.
pub(crate) fn asked_for_status(rt: &HostRuntime) -> bool {
    matches!(rt.arg(1, &mut [0u8; 1]), Ok(0))
}

// How many words the program was started with, its own name among them.
pub(crate) fn word_count(rt: &HostRuntime) -> usize {
    for i in 0..usize::MAX {
        if let Err(FillError::NotPresent) = rt.arg(i, &mut []) {
            return i;
        }
    }
    usize::MAX
}

// Puts what a reader gives at the start of the room, up to its end or to the room's, and says how many bytes. std's `read_to_end` wants a
// `Vec` on the heap.
#[tactic(auto, using(base::proofs::RoomFilled::room_filled))]
pub(crate) fn fill<R: Read>(from: &mut R, room: &mut [u8]) -> io::Result<usize>
    ensures within { IfOk result (λ n. n ≤ length room.new) }
    ensures bytes { IfOk result (λ n. Consumes (R.remaining from.old) (R.remaining from.new) (take n room.new)) }
    ensures whole { IfOk result (λ n. n < length room.new → IsAtEnd (R.remaining from.new)) }
{
    let mut count = 0;
    for _ in 0..room.len() {
        if count >= room.len() {
            break;
        }
        let n = from.read(&mut room[count..])?;
        if n == 0 {
            break;
        }
        count += n;
    }
    Ok(count)
}

// The bytes of the file of this name, as many as there is room for. std opens a file by a name that is text.
pub(crate) fn fill_by(rt: &HostRuntime, name: &[u8], room: &mut [u8]) -> io::Result<usize>
    ensures within { IfOk result (λ n. n ≤ length room.new) }
{
    let Ok(name) = str::from_utf8(name) else {
        return Err(io::Error::from(ErrorKind::InvalidFilename));
    };
    let mut file = File::open(rt, name)?;
    fill(&mut file, room)
}

// Writes a text on standard output.
pub(crate) fn write(rt: &HostRuntime, text: &[u8]) -> Result<(), Stop>
    ensures unwritten { IfErr result IsUnwritten }
{
    rt.write_all(text).map_err(|e| unwritten(&e))
}

// Whoever reads has gone, as head does, and needs no word.
fn unwritten(e: &io::Error) -> Stop
    ensures unwritten { IsUnwritten result }
{
    if e.kind() == ErrorKind::BrokenPipe {
        Stop::Gone
    } else {
        Stop::Unwritten
    }
}
