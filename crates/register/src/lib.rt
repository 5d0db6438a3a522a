// The asset register's table (document 02, W-210): comma-separated lines, read into a plan and written from one.
#![tactic(auto)]

mod fields;
mod reader;
mod rows;
mod strings;

ghost use Rattle.std.specs.Prelude.{◌≡◌};
ghost use Rattle.rules.specs.Text.{said_in};
ghost use Rattle.register.specs.Table.{table_reading};
ghost use Rattle.register.specs.Export.{export_answer, export_page};

use days::Length;
use faults::{Fault, Refusal};
pub use reader::{moved, opened, row_here, three_at};
use rows::{put_rows, rows_length};
use rules::{BatteryString, NO_RELEASE, Plan, PlanFile, Releases};
use strings::rows_in;
use writing::room_check;

// What a reader gives for a line: that the text has ended; that the line is no row; or the string that it says. With the place at which
// the next line starts. An Option of an Option is no plainer: each of the three has its name.
#[derive(Clone, Copy)]
pub enum Row {
    End,
    Malformed { next: usize },
    Says { string: BatteryString, next: usize },
}

// What is read of a line that has to say so many numbers: the numbers, where it says them; and the place at which the next line starts.
#[derive(Clone, Copy)]
pub struct LineRead<T> {
    pub numbers: Option<T>,
    pub next: usize,
}

// A reader: an export, and the place in it at which the next row starts.
#[derive(Clone, Copy)]
pub struct Export<'a> {
    pub text: &'a [u8],
    pub at: usize,
}

// The plan of a table and an N given beside it, with no releases; or the first fault with its line. The text is lent and keeps its bytes.
#[tactic(auto, unfolding(crate::specs::Table::table_reading, crate::specs::Table::table_check, rules::specs::Refusal::count_check))]
pub fn register(text: &[u8], run: Length) -> Result<PlanFile, Refusal>
    ensures exact { result ≡ said_in (table_reading run.0 text.now) }
    ensures kept { text.exit.now ≡ text.entry.now }
{
    if 65536 < text.len() {
        return Err(Refusal {
            fault: Fault::TextTooLong,
            at: 0,
        });
    }
    // N alone: one string is lawful
    bounds::head_check(0, 1, run)?;
    if text.is_empty() {
        return Err(Refusal {
            fault: Fault::StringCount,
            at: 0,
        });
    }
    let plan = rows_in(text, run)?;
    bounds::multiple_check(plan.n, plan)?;
    Ok(PlanFile {
        plan,
        releases: Releases {
            count: 0,
            list: [NO_RELEASE; 1000],
        },
    })
}

// The strings of a plan as rows, into the page from `at` on; the bytes ahead of them and behind them stay. 4 to 8 as for numbers, then 9
// with 0 where there is no room; then no byte of the page is another.
#[tactic(auto, unfolding(crate::specs::Export::export_answer, crate::specs::Export::export_page, crate::specs::Export::export_check))]
pub fn table(p: Plan, rs: Releases, page: &mut [u8], at: usize) -> Result<usize, Refusal>
    ensures exact { result ≡ export_answer p rs page.old at }
    ensures page { page.new ≡ export_page p rs page.old at }
{
    bounds::run_check(p, rs)?;
    let length = rows_length(p);
    room_check(page, at, length)?;
    put_rows(&mut page[at..], p);
    Ok(length)
}
