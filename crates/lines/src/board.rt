// Parts of the lines of the crew's board: what stands behind a date and its weekday, and the number of a refusal.
ghost use Rattle.std.specs.Prelude.{◌≡◌};
ghost use Rattle.lines.specs.Pages.{page_of};
ghost use Rattle.lines.specs.Board.{used_line, missed_line, number_line};

use super::Page;
use super::templates::lone_line;
use faults::Fault;
use rules::Use;

// What the bank did on a day.
#[tactic(auto, unfolding(rules::specs::Lines::bytes_of, crate::specs::Board::used_line))]
pub fn used_line(used: Use) -> Page
    ensures exact { result ≡ page_of (used_line used) }
{
    match used {
        Use::Idle => lone_line(b"idle\n", &[]),
        Use::Work { place, .. } => lone_line(b"# work\n", &[place as u64]),
        Use::Move { place, .. } => lone_line(b"# move\n", &[place as u64]),
    }
}

// The place of a miss.
#[tactic(auto, unfolding(rules::specs::Lines::bytes_of, crate::specs::Board::missed_line))]
pub fn missed_line(place: usize) -> Page
    ensures exact { result ≡ page_of (missed_line place) }
{
    lone_line(b"miss #\n", &[place as u64])
}

// The number of a refusal, alone on its line.
#[tactic(auto, unfolding(rules::specs::Lines::bytes_of, crate::specs::Board::number_line))]
pub fn number_line(fault: Fault) -> Page
    ensures exact { result ≡ page_of (number_line fault) }
{
    lone_line(b"#\n", &[u32::from(fault) as u64])
}
