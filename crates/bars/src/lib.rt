// The run of a plan as bars, line by line: the days, a row for each string, the idle days that share a column, and where the bars end. No
// caller is trusted to have checked anything: what is refused gives the refusal's line, and a place at which nothing stands an empty page.
#![tactic(auto)]

mod cells;
mod columns;
mod sheet;

ghost use Rattle.std.specs.Prelude.{◌≡◌};
ghost use Rattle.faults.specs.Checks.{Lawful};
ghost use Rattle.rules.specs.Plan.{strings_of, no_string};
ghost use Rattle.rules.specs.Release.{releases_of};
ghost use Rattle.rules.specs.Refusal.{run_check};
ghost use Rattle.lines.specs.Pages.{page_of};
ghost use Rattle.showing.specs.Shown.{in_place};
ghost use Rattle.bars.specs.Bars.{no_column, last_day_of, idle_words, cut_behind, row_words, head_shown, row_shown, idle_shown, cut_shown};
ghost use Rattle.bars.specs.inner.Drawing.{ColumnEnds, cols_of, UpToSeventy, SheetOf};

use cells::row_cells;
use columns::{Drawn, day_marks};
use lines::{Page, bar_row, blank, cut_line, day_row, idle_line, written};
use rules::{Plan, Releases};
use sheet::{Sheet, listed};

// A column of the bars: its first day, and how many days it stands for: one, or those of a long idle stretch.
#[derive(Clone, Copy)]
pub struct Column {
    pub first: u32,
    pub days: u32,
}

impl Column {
    fn last_day(self) -> u32
        requires { ColumnEnds self }
        ensures exact { result ≡ last_day_of self }
    {
        self.first + (self.days - 1)
    }
}

// The line above the bars.
pub fn head_shown(p: Plan, rs: Releases) -> Page
    ensures exact { result ≡ page_of (head_shown p rs) }
{
    let mut list = [0u32; 15005];
    match listed(p, rs, &mut list) {
        Ok(sheet) => day_row(day_marks(sheet.drawn), sheet.drawn.count),
        Err(refusal) => written(Err(refusal)),
    }
}

// The row of the string at a place, from 1.
fn row_in(p: Plan, rs: Releases, list: &[u32], sheet: Sheet, place: usize) -> Page
    requires rs_value { run_check p rs ≡ Lawful }
    requires sheet_of { SheetOf p (releases_of rs) sheet list.now }
    ensures exact { result ≡ page_of (in_place (row_words p (releases_of rs)) no_string (strings_of p) place) }
{
    if !(1..=p.n).contains(&place) {
        return blank();
    }
    let cells = row_cells(p, rs, list, sheet.stints, sheet.days, sheet.drawn, place);
    bar_row(place, cells, sheet.drawn.count)
}

pub fn row_shown(p: Plan, rs: Releases, place: usize) -> Page
    ensures exact { result ≡ page_of (row_shown p rs place) }
{
    let mut list = [0u32; 15005];
    match listed(p, rs, &mut list) {
        Ok(sheet) => row_in(p, rs, &list, sheet, place),
        Err(refusal) => written(Err(refusal)),
    }
}

// The days that share the k-th column, from 1; nothing where it is one day's.
fn idle_in(drawn: Drawn, k: usize) -> Page
    requires { UpToSeventy drawn }
    ensures exact { result ≡ page_of (in_place (λ i c. idle_words c) no_column (cols_of drawn) k) }
{
    if !(1..=drawn.count).contains(&k) {
        return blank();
    }
    let c = drawn.columns[k - 1];
    if c.days <= 1 {
        return blank();
    }
    idle_line(c.first, c.last_day())
}

pub fn idle_shown(p: Plan, rs: Releases, k: usize) -> Page
    ensures exact { result ≡ page_of (idle_shown p rs k) }
{
    let mut list = [0u32; 15005];
    match listed(p, rs, &mut list) {
        Ok(sheet) => idle_in(sheet.drawn, k),
        Err(refusal) => written(Err(refusal)),
    }
}

// Where seventy columns end before the run does, which ends on the day `end`.
fn cut_in(drawn: Drawn, end: u32) -> Page
    requires { UpToSeventy drawn }
    ensures exact { result ≡ page_of (cut_behind (cols_of drawn) end) }
{
    if drawn.count < 70 {
        return blank();
    }
    let last = drawn.columns[69].last_day();
    if end <= last {
        return blank();
    }
    cut_line(last, end)
}

// The line at the end of the bars.
pub fn cut_shown(p: Plan, rs: Releases) -> Page
    ensures exact { result ≡ page_of (cut_shown p rs) }
{
    let mut list = [0u32; 15005];
    match listed(p, rs, &mut list) {
        Ok(sheet) => cut_in(sheet.drawn, sheet.end),
        Err(refusal) => written(Err(refusal)),
    }
}
