// A line's fields: what stands between its commas, each a number of a few decimal digits.
ghost use Rattle.std.specs.Prelude.{◌≡◌, ◌≤◌, ◌∷◌, eqb, position};
ghost use Rattle.register.specs.Table.{fields_of};
ghost use Rattle.register.specs.inner.Fields.{lead, register_number_in, numbers_in, fields_left};

// Where a byte first stands in a text.
pub(crate) fn place_of(stop: u8, text: &[u8]) -> Option<usize>
    ensures exact { result ≡ position (λ b. eqb b stop) text.now }
{
    text.iter().position(|b| *b == stop)
}

// Whether the first digit may lead: it is no zero, or the only one.
fn leads(field: &[u8]) -> bool
    ensures exact { result ≡ lead field.now }
{
    field.len() < 2 || field[0] != b'0'
}

// The number of a field: a digit too many, none, a leading zero or another character make none.
#[tactic(auto, unfolding(crate::specs::inner::Fields::register_number_in, crate::specs::Table::plain_number))]
fn number_in(field: &[u8], most: usize) -> Option<u32>
    requires { most ≤ 9 }
    ensures exact { result ≡ register_number_in most field.now }
{
    if !(1..=most).contains(&field.len()) || !leads(field) {
        return None;
    }
    let mut n = 0;
    for b in field {
        if !(b'0'..=b'9').contains(b) {
            return None;
        }
        n = n * 10 + u32::from(*b - b'0');
    }
    Some(n)
}

// What stands ahead of the first comma, and what stands behind it where there is one.
fn first_field(row: &[u8]) -> (&[u8], Option<&[u8]>)
    ensures exact { fields_of row.now ≡ result.0.now ∷ fields_left result.1 }
{
    match place_of(b',', row) {
        Some(comma) => (&row[..comma], Some(&row[comma + 1..])),
        None => (row, None),
    }
}

// The numbers of a line without its end, field by field: as many as are asked for, of so many digits at most.
pub(crate) fn numbers_in<const N: usize>(row: &[u8], most: usize) -> Option<[u32; N]>
    requires { most ≤ 9 }
    ensures exact { result ≡ numbers_in N most (fields_of row.now) }
{
    let mut numbers = [0; N];
    let mut left = Some(row);
    for number in &mut numbers {
        let (field, behind) = first_field(left?);
        *number = number_in(field, most)?;
        left = behind;
    }
    match left {
        Some(_) => None,
        None => Some(numbers),
    }
}
