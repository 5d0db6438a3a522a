// A frame as its line, at the head of a lent part of the page: one field after the other, each handed the next part.
ghost use Rattle.std.specs.Prelude.{◌≡◌, [], ◌∷◌, ◌++◌, ◌+◌, ◌*◌, length, drop};
ghost use Rattle.writing.specs.inner.Cells.{cells_size, cells_text, Room};

use super::digits::{put_end, put_number};
use layouts::Field;

// What a frame says in one place, its kind or a field: the number, and in how many bytes.
#[derive(Clone, Copy)]
pub(crate) struct Cell {
    pub(crate) size: usize,
    pub(crate) value: u32,
}

impl Cell {
    // A number in the bytes of a field.
    pub(crate) fn of(field: Field, value: u32) -> Cell
        ensures exact { result ≡ record { size = field.size; value = value } }
    {
        Cell {
            size: field.size,
            value,
        }
    }
}

// The cells of a frame as its line.
pub(crate) fn put_frame(part: &mut [u8], cells: &[Cell])
    requires { Room cells.now (length part.old) }
    ensures exact { part.new ≡ (cells_text cells.now ++ (0x0a ∷ [])) ++ drop (cells_size cells.now * 2 + 1) part.old }
{
    let mut at = 0;
    for cell in cells {
        put_number(&mut part[at * 2..], cell.size, cell.value);
        at += cell.size;
    }
    put_end(&mut part[at * 2..]);
}
