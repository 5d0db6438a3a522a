// The rows of a table, one after the other.
ghost use Rattle.std.specs.Prelude.{◌≡◌};
ghost use Rattle.rules.specs.Text.{lines_of};
ghost use Rattle.register.specs.inner.Strings.{rows_in};

use super::Row;
use super::reader::row_from;
use days::Length;
use faults::{Fault, Refusal};
use rules::{NO_STRING, Plan};

// The plan of a table's rows with an N given beside them. Line by line: 4 for the eleventh, whatever it holds; 13 for one that is no row; 5
// for a string outside its bounds.
pub(crate) fn rows_in(text: &[u8], run: Length) -> Result<Plan, Refusal>
    ensures exact { result ≡ rows_in run.0 (lines_of text.now) }
{
    let mut strings = [NO_STRING; 10];
    let mut n = 0;
    let mut at = 0;
    while at < text.len() {
        let line = n + 1;
        if 10 < line {
            return Err(Refusal {
                fault: Fault::StringCount,
                at: line,
            });
        }
        let Row::Says { string, next } = row_from(text, at) else {
            return Err(Refusal {
                fault: Fault::RowMalformed,
                at: line,
            });
        };
        if !bounds::string_lawful(string) {
            return Err(Refusal {
                fault: Fault::OutOfBounds,
                at: line,
            });
        }
        strings[n] = string;
        n = line;
        at = next;
    }
    Ok(Plan { n, run, strings })
}
