// The lines of a run as bars: the days, a row for each string, what the marks mean, and what was shortened or left out.
ghost use Rattle.std.specs.Prelude.{◌≡◌, [], ◌∷◌, ◌++◌, ◌+◌, ◌≤◌, length, take};
ghost use Rattle.lines.specs.Pages.{page_of, text_of};
ghost use Rattle.lines.specs.Bars.{trimmed, row_head, days_row, bar_row, marks_line, idle_line, cut_line};

use super::Page;
use super::pages::blank;
use super::templates::lone_line;

// Cells without the spaces at their end.
fn trimmed(cells: &[u8]) -> &[u8]
    ensures exact { result.now ≡ trimmed cells.now }
    ensures short { length result.now ≤ length cells.now }
{
    let mut kept = cells;
    while let [front @ .., last] = kept
        && *last == b' '
    {
        kept = front;
    }
    kept
}

impl Page {
    // The first cells, without the spaces at their end, and the line's end.
    fn append_cells(self, cells: [u8; 70], count: usize) -> Page
        requires { self.len + 71 ≤ 256 }
        ensures exact { text_of result ≡ text_of self ++ trimmed (take count cells) ++ (0x0a ∷ []) }
    {
        self.append(trimmed(&cells[..count.min(70)])).append(b"\n")
    }
}

// The days above the bars; of the seventy cells the first `count` count.
#[tactic(auto, using(crate::proofs::Growing::page_is), unfolding(rules::specs::Lines::bytes_of, crate::specs::Bars::days_row))]
pub fn day_row(cells: [u8; 70], count: usize) -> Page
    ensures exact { result ≡ page_of (days_row (take count cells)) }
{
    blank().append(b"day       ").append_cells(cells, count)
}

// The name of a row, up to its tenth column.
#[tactic(auto, unfolding(rules::specs::Lines::bytes_of, crate::specs::Bars::row_head))]
fn row_head(place: usize) -> Page
    ensures exact { text_of result ≡ row_head place }
    ensures short { result.len ≤ 30 }
{
    let template: &[u8] = if place < 10 {
        b"string #  "
    } else {
        b"string # "
    };
    blank().fill_in(template, &[place as u64])
}

// The bars of the string at a place.
#[tactic(auto, using(crate::proofs::Growing::page_is), unfolding(rules::specs::Lines::bytes_of, crate::specs::Bars::bar_row))]
pub fn bar_row(place: usize, cells: [u8; 70], count: usize) -> Page
    ensures exact { result ≡ page_of (bar_row place (take count cells)) }
{
    row_head(place).append_cells(cells, count)
}

// What the marks mean. A text with a # of its own, and no template.
#[tactic(auto, using(crate::proofs::Growing::page_is), unfolding(rules::specs::Lines::bytes_of, crate::specs::Bars::marks_line))]
pub fn marks_line() -> Page
    ensures exact { result ≡ page_of marks_line }
{
    blank().append(b"# work  m moving  . waiting  ! due, not done\n")
}

// Idle days that share a column.
#[tactic(auto, unfolding(rules::specs::Lines::bytes_of, crate::specs::Bars::idle_line))]
pub fn idle_line(first: u32, last: u32) -> Page
    ensures exact { result ≡ page_of (idle_line first last) }
{
    lone_line(b"~ days # to # idle\n", &[first as u64, last as u64])
}

// Where the bars end, if the run goes on behind them.
#[tactic(auto, unfolding(rules::specs::Lines::bytes_of, crate::specs::Bars::cut_line))]
pub fn cut_line(shown: u32, last: u32) -> Page
    ensures exact { result ≡ page_of (cut_line shown last) }
{
    lone_line(
        b"cut after day #: the run goes on to day #\n",
        &[shown as u64, last as u64],
    )
}
