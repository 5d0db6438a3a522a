// A plan file and an input: the board, or the first refusal.
ghost use Rattle.std.specs.Prelude.{◌≡◌, length};
ghost use Rattle.boards.specs.Whole.{board_reading, board_in, board_listed};

use super::Board;
use super::entered::input_read;
use faults::Refusal;
use reading::read;
use run::{run, stints};

// The board of a plan file and an input; the run's stints go into the lent list, five numbers each. Both texts keep their bytes. What the
// stints are counted of, the run does not refuse.
pub fn board_read(plan: &[u8], input: &[u8], list: &mut [u32]) -> Result<Board, Refusal>
    ensures exact { result ≡ board_in (board_reading plan.now input.now (length list.old)) }
    ensures stored { list.new ≡ board_listed plan.now input.now list.old }
    ensures kept { (plan.exit.now ≡ plan.entry.now) × (input.exit.now ≡ input.entry.now) }
{
    let file = read(plan)?;
    let entered = input_read(input, file.plan.run)?;
    let stints = stints(file.plan, file.releases, list)?;
    let outcome = run(file.plan, file.releases)?;
    Ok(Board {
        start: entered.start,
        diary: entered.diary,
        stints,
        outcome,
    })
}
