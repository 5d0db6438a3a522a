// `to-02 [FILE]`, `to-01 [FILE]`: a plan file of version 01 as version 02, and of version 02 as version 01.
use super::commands::{Command, first};
use super::files::read_by;
use super::outside::write;
use super::plans::name_in;
use super::say;
use doors::Stop;
use faults::Refusal;

// `turned` turns the text; `wanted` is how the command is to be said.
pub(crate) fn turn<F>(
    rt: &HostRuntime,
    command: Command,
    wanted: &[u8],
    turned: F,
) -> Result<(), Stop>
where
    F: FnOnce(&[u8], &mut [u8], usize) -> Result<usize, Refusal>,
    requires { F.IsAlwaysCallable turned }
{
    let mut room = [0u8; 65537];
    let n = read_by(rt, name_in(rt, command, wanted)?, &mut room)?;
    let mut page = [0u8; 65536];
    match turned(&room[..n], &mut page, 0) {
        Ok(length) => write(rt, first(&page, length)),
        Err(refusal) => Err(say::refused(rt, refusal)),
    }
}
