// Plans in files.
use super::commands::Command;
use super::files::read_by;
use super::say;
use doors::Stop;
use rules::PlanFile;

// The name of the one file that a command may name; standard input where it names none. `wanted` is how the command is to be said.
pub(crate) fn name_in<'a>(
    rt: &HostRuntime,
    command: Command<'a>,
    wanted: &[u8],
) -> Result<&'a [u8], Stop> {
    match command.count() {
        0 | 1 => Ok(b"-"),
        2 => Ok(command.word(1)),
        _ => Err(say::complain(rt, wanted)),
    }
}

// The plan in the one file that a command may name.
pub(crate) fn open_plan(
    rt: &HostRuntime,
    command: Command,
    wanted: &[u8],
) -> Result<PlanFile, Stop> {
    open_by(rt, name_in(rt, command, wanted)?)
}

// The plan in the file of this name. One byte more than the longest text is enough to refuse a longer one.
pub(crate) fn open_by(rt: &HostRuntime, name: &[u8]) -> Result<PlanFile, Stop> {
    let mut room = [0u8; 65537];
    let n = read_by(rt, name, &mut room)?;
    reading::read(&room[..n]).map_err(|refusal| say::refused(rt, refusal))
}
