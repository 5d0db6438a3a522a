// The lines that are written for an answer (document 01, "Frames of the plan file"), on a page of text.
#![tactic(auto)]

mod bars;
mod board;
mod dates;
mod limits;
mod pages;
mod parts;
mod reasons;
mod rows;
mod same;
mod sets;
mod shown;
mod stints;
mod templates;
mod why;

ghost use Rattle.std.specs.Prelude.{◌≡◌, ◌≤◌, length, take};
ghost use Rattle.base.specs.Count.{filled};

pub use bars::{bar_row, cut_line, day_row, idle_line, marks_line};
pub use board::{missed_line, number_line, used_line};
pub use dates::{date_line, day_line};
pub use limits::{Limit, Limits, limits_line};
pub use pages::{blank, put_text};
pub use parts::{run_written, verdict_written, written};
pub use reasons::{Reason, reason_line};
pub use rows::{row_line, visit_line};
pub use same::{alone_line, counts_line, same_line};
pub use sets::{SetNote, set_line};
pub use shown::{load_line, plan_line, release_line, string_line};
pub use stints::stint_line;
pub use why::{
    blocker_line, blocking_line, demand_line, multiple_line, nowhere_line, over_line, pair_line,
    share_line, stair_line, stretch_line,
};

// Text and what is left of the page: the first `len` bytes are the text; zeros stand behind it. A page and no String, which is on the heap
// and may find no room: a line can always be written.
#[derive(Clone, Copy)]
pub struct Page {
    pub len: usize,
    pub bytes: [u8; 256],
    pub ghost within: { len ≤ length bytes },
    pub ghost written: { bytes ≡ filled 256 0 (take len bytes) },
}
