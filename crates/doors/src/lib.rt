// The doors of the programs: what they read and write, why one stops short of its whole answer, with which status, and how it says so.
// What lies outside gives and takes what it likes, so that the contract of a function that asks there speaks of the room, of what is lent
// and of the kind of an error or an end, and of no byte that comes or goes but those of a reader whose bytes are known. desk, clerk and
// board open and write by functions of their own (src/outside.rt of each).
#![tactic(auto)]

ghost use Rattle.std.specs.Prelude.{◌≡◌, ℕ, ◌<◌, ◌≤◌, IfOk, IfErr, MatchResult, IsUtf8, max, length, take};
ghost use Rattle.std.specs.IoError.{error_kind};
ghost use Rattle.std.specs.Process.{exit_status};
ghost use Rattle.std.specs.Io.KnownBytes.{Consumes, IsAtEnd};
ghost use Rattle.doors.specs.Stops.{status_of, rank_of, IsUnwritten};

use std::env::FillError;
use std::fs::File;
use std::io::{ErrorKind, Print, Read};
use std::process::ExitCode;
use std::rt::Env;
use std::{io, str};

#[cfg(test)]
mod tests;

// Why a program stops short of its whole answer; of several the largest counts. Refused is a whole answer, too, which says that there is
// none of the kind asked for.
#[derive(Clone, Copy, PartialEq, Eq, PartialOrd, Ord)]
pub enum Stop {
    Refused,
    Failed,
    Unwritten,
    Gone,
}

// What could not be read, understood or written is one status.
pub fn status(ended: Result<(), Stop>) -> ExitCode
    ensures exact { exit_status result ≡ status_of ended }
{
    ExitCode::from(match ended {
        Ok(()) => 0,
        Err(Stop::Refused) => 1,
        Err(Stop::Failed | Stop::Unwritten | Stop::Gone) => 2,
    })
}

// Of two ends the one that counts.
pub fn worse(ended: Result<(), Stop>, next: Result<(), Stop>) -> Result<(), Stop>
    ensures exact { rank_of result ≡ max (rank_of ended) (rank_of next) }
{
    ended.max(next)
}

// Whether the first word is empty. It names no file then: the commands in the top folder start a program so and want the status.
pub fn asked_for_status(rt: &HostRuntime) -> bool
    ensures kept { rt.exit.now ≡ rt.entry.now }
{
    matches!(rt.arg(1, &mut [0u8; 1]), Ok(0))
}

// How many words the program was started with, its own name among them.
pub fn word_count(rt: &HostRuntime) -> usize
    ensures kept { rt.exit.now ≡ rt.entry.now }
{
    for i in 0..usize::MAX {
        if let Err(FillError::NotPresent) = rt.arg(i, &mut []) {
            return i;
        }
    }
    usize::MAX
}

// Puts what a reader gives at the start of the room, up to its end or to the room's, and says how many bytes; where a read fails, what came
// before stands there. std's `read_to_end` wants a `Vec` on the heap.
#[tactic(auto, using(base::proofs::RoomFilled::room_filled))]
pub fn fill<R: Read>(from: &mut R, room: &mut [u8]) -> io::Result<usize>
    ensures within { IfOk result (λ n. n ≤ length room.new) }
    ensures bytes { IfOk result (λ n. Consumes (R.remaining from.old) (R.remaining from.new) (take n room.new)) }
    ensures whole { IfOk result (λ n. n < length room.new → IsAtEnd (R.remaining from.new)) }
    ensures room { length room.new ≡ length room.old }
    ensures none_lost { IfErr result (λ _. (k : ℕ) × (k ≤ length room.new)
        × Consumes (R.remaining from.old) (R.remaining from.new) (take k room.new)) }
{
    let mut count = 0;
    for _ in 0..room.len() {
        if count >= room.len() {
            break;
        }
        let n = from.read(&mut room[count..])?;
        if n == 0 {
            break;
        }
        count += n;
    }
    Ok(count)
}

// The bytes of the file of this name, as many as there is room for. std opens a file by a name that is text. The name is lent and keeps
// its bytes.
pub fn fill_by(rt: &HostRuntime, name: &[u8], room: &mut [u8]) -> io::Result<usize>
    ensures within { IfOk result (λ n. n ≤ length room.new) }
    ensures unnamed { (IsUtf8 name.now → ⊥) → MatchResult result (λ _. ⊥) (λ e. error_kind e ≡ ErrorKind.InvalidFilename) }
    ensures room { length room.new ≡ length room.old }
    ensures kept { name.exit.now ≡ name.entry.now }
{
    let Ok(name) = str::from_utf8(name) else {
        return Err(io::Error::from(ErrorKind::InvalidFilename));
    };
    let mut file = File::open(rt, name)?;
    fill(&mut file, room)
}

// The system's number for a file that may not be read; std's kind has another number beside it.
const EACCES: i32 = 13;

// Why a file cannot be read, in words that go behind its name.
fn reason_of(reason: &io::Error) -> &'static [u8] {
    let denied = reason.raw_os_error() == Some(EACCES);
    match reason.kind() {
        ErrorKind::NotFound => b": no such file",
        ErrorKind::IsADirectory => b": a folder",
        ErrorKind::PermissionDenied if denied => b": no permission",
        _ => b"",
    }
}

// One line on standard error, after the program's name, which is handed over with its colon and space: what is wrong, and about which
// word. The texts are lent and keep their bytes.
pub fn complain(rt: &HostRuntime, program: &[u8], what: &[u8], word: &[u8], more: &[u8]) -> Stop
    ensures failed { result ≡ Stop.Failed }
    ensures kept { (program.exit.now ≡ program.entry.now) × (what.exit.now ≡ what.entry.now) × (word.exit.now ≡ word.entry.now)
        × (more.exit.now ≡ more.entry.now) }
{
    let stderr = rt.stderr();
    for part in [program, what, word, more, b"\n"] {
        let _ = stderr.write_all(part);
    }
    Stop::Failed
}

// What cannot be read is named. The texts are lent and keep their bytes.
pub fn unread(rt: &HostRuntime, program: &[u8], name: &[u8], reason: &io::Error) -> Stop
    ensures failed { result ≡ Stop.Failed }
    ensures kept { (program.exit.now ≡ program.entry.now) × (name.exit.now ≡ name.entry.now) }
{
    complain(rt, program, b"cannot read ", name, reason_of(reason))
}

// Writes a text on standard output. The text is lent and keeps its bytes.
pub fn write(rt: &HostRuntime, text: &[u8]) -> Result<(), Stop>
    ensures unwritten { IfErr result IsUnwritten }
    ensures kept { text.exit.now ≡ text.entry.now }
{
    rt.write_all(text).map_err(|e| unwritten(&e))
}

// Whoever reads has gone, as head does, and needs no word.
fn unwritten(e: &io::Error) -> Stop
    ensures unwritten { IsUnwritten result }
{
    if e.kind() == ErrorKind::BrokenPipe {
        Stop::Gone
    } else {
        Stop::Unwritten
    }
}
