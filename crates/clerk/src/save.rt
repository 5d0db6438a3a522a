// `save [FILE]`: the plan in a file, written back. `save FILE SIZE PLACE`: the same into a page of SIZE bytes, from PLACE on.
// `table [FILE]`, `table FILE SIZE PLACE`: its strings alone, as rows of the asset register's table.
use super::commands::{Command, decimal, first};
use super::outside::write;
use super::plans::{open_by, open_plan};
use super::say;
use doors::Stop;
use faults::Refusal;
use rules::{Plan, PlanFile, Releases};

// As frames, or as rows: `put` says which; `wanted` is how the command is to be said.
pub(crate) fn save<F>(rt: &HostRuntime, command: Command, wanted: &[u8], put: F) -> Result<(), Stop>
where
    F: FnOnce(Plan, Releases, &mut [u8], usize) -> Result<usize, Refusal>,
    requires { F.IsAlwaysCallable put }
{
    if command.count() == 4 {
        return save_page(rt, command, put);
    }
    let opened = open_plan(rt, command, wanted)?;
    answer_text(rt, opened, put)
}

// The text alone.
pub(crate) fn answer_text<F>(rt: &HostRuntime, opened: PlanFile, put: F) -> Result<(), Stop>
where
    F: FnOnce(Plan, Releases, &mut [u8], usize) -> Result<usize, Refusal>,
    requires { F.IsAlwaysCallable put }
{
    let mut page = [0u8; 65536];
    match put(opened.plan, opened.releases, &mut page, 0) {
        Ok(length) => write(rt, first(&page, length)),
        Err(refusal) => Err(say::refused(rt, refusal)),
    }
}

// A page of dots, with the text in it.
fn save_page<F>(rt: &HostRuntime, command: Command, put: F) -> Result<(), Stop>
where
    F: FnOnce(Plan, Releases, &mut [u8], usize) -> Result<usize, Refusal>,
    requires { F.IsAlwaysCallable put }
{
    let mut page = [b'.'; 65536];
    let size = command.word(2);
    let bytes = match decimal(size) {
        Ok(bytes) if bytes <= 65536 => bytes as usize,
        _ => return Err(say::complain_of(rt, b"", size, b" is no size of a page: 0 to 65536")),
    };
    let place = command.word(3);
    let Ok(at) = decimal(place) else {
        return Err(say::complain_of(rt, b"", place, b" is no place in a page: 0 or more"));
    };
    let opened = open_by(rt, command.word(1))?;
    match put(
        opened.plan,
        opened.releases,
        &mut page[..bytes],
        at as usize,
    ) {
        Ok(_) => write(rt, &page[..bytes]),
        Err(refusal) => Err(say::refused(rt, refusal)),
    }
}
