// The row of a type that has the name of a row of the other sheet. Rows that are likely to have it are looked at first.
#![tactic(auto)]

ghost use Rattle.std.specs.Prelude.{◌≡◌, ◌<◌};
ghost use Rattle.table.specs.Table.{bytes_at, name_at, first_word, rows_word};
ghost use Rattle.namesakes.specs.Named.{is_named, NamedIn};

use name_compare::has_name;
use name_marks::marked;
use row_lookup::row_named;
use table::read::{row_word, type_word};
use table::{FIRST, NAME, NAME_LENGTH, ROWS};

// The row is one of the n rows from first on, and its name is the len bytes of x from start on.
fn is_named(
    half: &[u32],
    sheet: &[u8],
    first: usize,
    n: usize,
    row: usize,
    x: &[u8],
    start: usize,
    len: usize,
) -> bool
    requires { (first < 4294967296) × (n < 4294967296) × (start < 4294967296) × (len < 4294967296) }
    ensures { result ≡ is_named half.now sheet.now (bytes_at x.now start len) first n row }
{
    if row < first {
        return false;
    }
    if first + n <= row {
        return false;
    }
    has_name(half, sheet, row, x, start, len)
}

// Of the n rows from first on, one whose name is the len bytes of x from start on. The row `hint` is looked at first, then the one that is noted at the name's
// mark, then all.
pub fn row_by_hint(
    half: &[u32],
    sheet: &[u8],
    first: usize,
    n: usize,
    hint: usize,
    x: &[u8],
    start: usize,
    len: usize,
) -> Option<usize>
    requires { (first < 4294967296) × (n < 4294967296) × (start < 4294967296) × (len < 4294967296) }
    ensures { NamedIn half.now sheet.now (bytes_at x.now start len) first n result }
{
    if is_named(half, sheet, first, n, hint, x, start, len) {
        return Some(hint);
    }
    let above = marked(half, x, start, len);
    if 0 < above {
        let noted = above - 1;
        if is_named(half, sheet, first, n, noted, x, start, len) {
            return Some(noted);
        }
    }
    row_named(half, sheet, first, n, x, start, len)
}

// The row of the source type that has the name of the destination's row. Most often it has the same number.
pub fn namesake(
    source_half: &[u32],
    source_sheet: &[u8],
    source_type: usize,
    destination_half: &[u32],
    destination_sheet: &[u8],
    row: usize,
) -> Option<usize>
    ensures { NamedIn source_half.now source_sheet.now (name_at destination_half.now destination_sheet.now row) (first_word source_half.now source_type) (rows_word source_half.now source_type) result }
{
    let start = row_word(destination_half, row, NAME);
    let len = row_word(destination_half, row, NAME_LENGTH);
    let first = type_word(source_half, source_type, FIRST);
    let n = type_word(source_half, source_type, ROWS);
    row_by_hint(
        source_half,
        source_sheet,
        first,
        n,
        row,
        destination_sheet,
        start,
        len,
    )
}
