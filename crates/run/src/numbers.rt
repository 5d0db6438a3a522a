// A stint read back from the numbers that the list of a run's stints holds.
ghost use Rattle.std.specs.Prelude.{◌≡◌};
ghost use Rattle.run.specs.Numbers.{use_in, stint_at};

use days::{Day, Length};
use rules::{Stint, Use};

// What the bank did, by the numbers of the list (the C interface): 1 work, 2 moving.
fn use_in(kind: u32, place: usize, serves: usize) -> Use
    ensures exact { result ≡ use_in kind place serves }
{
    match kind {
        1 => Use::Work { place, serves },
        2 => Use::Move { place, serves },
        _ => Use::Idle,
    }
}

// The stint with index k, from 0, of a list with five numbers for each; one of no days where the list does not reach it.
#[tactic(auto, unfolding(crate::specs::Numbers::stint_at))]
pub fn stint_at(numbers: &[u32], k: usize) -> Stint
    ensures exact { result ≡ stint_at numbers.now k }
    ensures kept { numbers.exit.now ≡ numbers.entry.now }
{
    if numbers.len() / 5 <= k {
        return Stint {
            first: Day(0),
            length: Length(0),
            used: Use::Idle,
        };
    }
    let at = 5 * k;
    Stint {
        first: Day(numbers[at]),
        length: Length(numbers[at + 1]),
        used: use_in(
            numbers[at + 2],
            numbers[at + 3] as usize,
            numbers[at + 4] as usize,
        ),
    }
}
