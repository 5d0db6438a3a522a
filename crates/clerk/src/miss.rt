// `miss [FILE]`: the plan in a file with releases over which it misses a deadline, as a plan file; nothing where there is none to write.
use super::commands::{Command, first};
use super::files::read_by;
use super::outside::write;
use super::plans::name_in;
use super::say;
use doors::Stop;
use missed::Missed;

pub(crate) fn miss(rt: &HostRuntime, command: Command) -> Result<(), Stop> {
    let mut room = [0u8; 65537];
    let n = read_by(rt, name_in(rt, command, b"miss [FILE]")?, &mut room)?;
    let mut page = [0u8; 65536];
    let why: &[u8] = match missed::miss(&room[..n], &mut page, 0) {
        Ok(Missed::Text { length }) => return write(rt, first(&page, length)),
        Ok(Missed::Passes) => b"none: the plan passes",
        Ok(Missed::Never) => b"none: it fails, and no list misses",
        Ok(Missed::NoneFound) => b"none found",
        Ok(Missed::TooMany) => b"none written: the list has over 1000 releases",
        Err(refusal) => return Err(say::refused(rt, refusal)),
    };
    Err(say::nothing(rt, why))
}
