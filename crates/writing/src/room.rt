// Whether what is to be written fits into the caller's page.
ghost use Rattle.std.specs.Prelude.{◌≡◌};
ghost use Rattle.faults.specs.Checks.{refuse_if};
ghost use Rattle.faults.specs.declared.Fault.TheVariants.{NoRoom};
ghost use Rattle.writing.specs.Saved.{lacks_room};

use faults::{Checked, Fault, Refusal};

// 9 with 0 where the page has fewer than so many bytes from `at` on. The page is lent and keeps its bytes.
pub fn room_check(page: &[u8], at: usize, length: usize) -> Checked
    ensures exact { result ≡ refuse_if (lacks_room page.now at length) NoRoom 0 }
    ensures kept { page.exit.now ≡ page.entry.now }
{
    match page.len().checked_sub(at) {
        Some(left) if length <= left => Ok(()),
        _ => Err(Refusal {
            fault: Fault::NoRoom,
            at: 0,
        }),
    }
}
