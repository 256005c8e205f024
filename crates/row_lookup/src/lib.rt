// Rows looked up by their name and by their value's number, the newest first.
#![tactic(auto)]

ghost use Rattle.std.specs.Prelude.{◌≡◌, ◌<◌};
ghost use Rattle.number.specs.Parts.{signed_by};
ghost use Rattle.datatype.specs.Symbols.{same_number};
ghost use Rattle.table.specs.Table.{bytes_at, value_at};
ghost use Rattle.table.specs.Rows.{row_named, row_numbered};

use name_compare::has_name;
use table::codes::flag_of;
use table::read::row_word;
use table::{HIGH, VALUE_HIGH, VALUE_LOW, VALUE_SIGN};

// Of the n rows from first on, the newest whose name is the len bytes of x from start on.
pub fn row_named(
    half: &[u32],
    sheet: &[u8],
    first: usize,
    n: usize,
    x: &[u8],
    start: usize,
    len: usize,
) -> Option<usize>
    requires { (first < 4294967296) × (n < 4294967296) × (start < 4294967296) × (len < 4294967296) }
    ensures { result ≡ row_named half.now sheet.now (bytes_at x.now start len) first n }
{
    for i in (0..n).rev() {
        let j = first + i;
        if has_name(half, sheet, j, x, start, len) {
            return Some(j);
        }
    }
    None
}

// The value in the row has this number.
fn has_number(half: &[u32], row: usize, negative: bool, distance: u64) -> bool
    ensures { result ≡ same_number (signed_by negative distance) (value_at half.now row) }
{
    let low = row_word(half, row, VALUE_LOW);
    let high = row_word(half, row, VALUE_HIGH);
    let held = (low + high * HIGH) as u64;
    // the sign of most rows is not read, since their distance differs
    distance == held && flag_of(row_word(half, row, VALUE_SIGN)) == negative
}

// Of the n rows from first on, the newest whose value has this number.
pub fn row_numbered(
    half: &[u32],
    first: usize,
    n: usize,
    negative: bool,
    distance: u64,
) -> Option<usize>
    requires { (first < 4294967296) × (n < 4294967296) }
    ensures { result ≡ row_numbered half.now (signed_by negative distance) first n }
{
    for i in (0..n).rev() {
        let j = first + i;
        if has_number(half, j, negative, distance) {
            return Some(j);
        }
    }
    None
}
