// Whether a compound may have a member more.
ghost use Rattle.std.specs.Prelude.{◌≡◌, true, ◌+◌, ◌<◌};
ghost use Rattle.table.specs.Table.{type_at, bytes_at, members_at, size_word, first_word, rows_word};
ghost use Rattle.sheet.specs.Sheet.{may_place};
ghost use Rattle.name_marks.specs.Marks.{mark_of, end_word};
ghost use Rattle.sheet_steps.specs.Noted.{Marked, Ended};
ghost use Rattle.sheet_steps.specs.Steps.{is_beside, apart_at};

use crate::name::is_new;
use name_marks::end_of;
use table::read::{row_word, type_word};
use table::{FIRST, MEMBER_OFFSET, MEMBER_TYPE, ROWS, SIZE};

// The width bytes from offset on overlap no byte of the member in the row.
fn is_beside(half: &[u32], row: usize, offset: usize, width: usize) -> bool
    requires { (offset < 4294967296) × (width < 4294967296) }
    ensures { result ≡ is_beside half.now row offset width }
{
    let o = row_word(half, row, MEMBER_OFFSET);
    let k = row_word(half, row, MEMBER_TYPE);
    let z = type_word(half, k, SIZE);
    if offset + width <= o {
        return true;
    }
    o + z <= offset
}

// The same for each of the n rows from first on.
fn is_apart(half: &[u32], first: usize, n: usize, offset: usize, width: usize) -> bool
    requires { (first < 4294967296) × (n < 4294967296) × (offset < 4294967296) × (width < 4294967296) }
    ensures { result ≡ apart_at half.now first n offset width }
{
    for i in (0..n).rev() {
        if !is_beside(half, first + i, offset, width) {
            return false;
        }
    }
    true
}

// The same, where no row is looked at if offset is not before the end of the type's members.
fn lies_apart(
    half: &[u32],
    type_number: usize,
    first: usize,
    n: usize,
    offset: usize,
    width: usize,
) -> bool
    requires { (type_number < 4294967296) × (first < 4294967296) × (n < 4294967296) × (offset < 4294967296) × (width < 4294967296) × Ended half.now first (first + n) (end_word half.now type_number) }
    ensures { result ≡ apart_at half.now first n offset width }
{
    if end_of(half, type_number) <= offset {
        return true;
    }
    is_apart(half, first, n, offset, width)
}

// The compound may have a member of this name and width at offset.
pub fn may_place(
    half: &[u32],
    sheet: &[u8],
    type_number: usize,
    start: usize,
    len: usize,
    mark: usize,
    offset: usize,
    width: usize,
) -> bool
    requires { (mark ≡ mark_of (bytes_at sheet.now start len)) × (mark < 512) × (type_number < 4294967296) × (start < 4294967296) × (len < 4294967296) × (offset < 4294967296) × (width < 4294967296) × Marked half.now sheet.now (first_word half.now type_number + rows_word half.now type_number) × Ended half.now (first_word half.now type_number) (first_word half.now type_number + rows_word half.now type_number) (end_word half.now type_number) }
    ensures { (result ≡ may_place (size_word half.now type_number) (members_at (type_at half.now sheet.now) half.now sheet.now (first_word half.now type_number) (rows_word half.now type_number)) (bytes_at sheet.now start len) offset width) × (result ≡ true → offset + width < 4294967296) }
{
    let first = type_word(half, type_number, FIRST);
    let rows = type_word(half, type_number, ROWS);
    if !is_new(half, sheet, first, rows, start, len, mark) {
        return false;
    }
    if type_word(half, type_number, SIZE) < offset + width {
        return false;
    }
    lies_apart(half, type_number, first, rows, offset, width)
}
