// `register FILE N`: the plan file of an export of the asset register, with N days to run and no releases.
use super::commands::{Command, NoNumber, decimal};
use super::files::read_by;
use super::save::answer_text;
use super::say;
use days::Length;
use doors::Stop;

// No run is so long: a larger number is refused as this one is.
const TOO_LONG: u32 = 1_000_001;

pub(crate) fn register_file(rt: &HostRuntime, command: Command) -> Result<(), Stop> {
    if command.count() != 3 {
        return Err(say::complain(rt, b"register FILE N"));
    }
    let days = command.word(2);
    let run = match decimal(days) {
        Ok(value) => u32::try_from(value).unwrap_or(TOO_LONG).min(TOO_LONG),
        Err(NoNumber::Larger) => TOO_LONG,
        Err(NoNumber::Malformed) => return Err(say::complain_of(
            rt,
            b"",
            days,
            b" is no number of days",
        )),
    };
    // one byte more than the longest text is enough to refuse a longer one
    let mut room = [0u8; 65537];
    let n = read_by(rt, command.word(1), &mut room)?;
    match register::register(&room[..n], Length(run)) {
        Ok(read) => answer_text(rt, read, writing::write),
        Err(refusal) => Err(say::refused(rt, refusal)),
    }
}
