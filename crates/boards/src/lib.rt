// The crew's board (document 02, W-214): a start date and a diary, read, and the days of a run, written page by page.
#![tactic(auto)]

mod daily; // daily.rt: a day of the board
mod entered; // entered.rt: standard input
mod paging; // paging.rt: pages of the board
mod whole; // whole.rt: a plan file and an input

use days::Day;
pub use entered::input_read;
pub use paging::{board_end, board_page};
use rules::Outcome;
pub use whole::board_read;

// A yearly test: a month and a day, and the edition of the guide by which it is done.
#[derive(Clone, Copy)]
pub struct Test {
    pub month: u32,
    pub day: u32,
    pub edition: u32,
}

// Stands where there is no test.
pub const NO_TEST: Test = Test {
    month: 0,
    day: 0,
    edition: 0,
};

// The crew's diary: of the twenty tests the first `count` count.
#[derive(Clone, Copy)]
pub struct Diary {
    pub count: usize,
    pub tests: [Test; 20],
}

// What standard input says: the day of the start and the diary.
#[derive(Clone, Copy)]
pub struct CrewInput {
    pub start: Day,
    pub diary: Diary,
}

// A board to be written: the day of the start, the diary, how many stints of the run a lent list holds, and how the run ended.
#[derive(Clone, Copy)]
pub struct Board {
    pub start: Day,
    pub diary: Diary,
    pub stints: usize,
    pub outcome: Outcome,
}

// What was put on a page: whole days, and their bytes.
#[derive(Clone, Copy)]
pub struct Filled {
    pub days: usize,
    pub length: usize,
}
