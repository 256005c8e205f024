// Whether a name is new among a type's rows.
ghost use Rattle.std.specs.Prelude.{◌≡◌, is_none, ◌+◌, ◌<◌};
ghost use Rattle.table.specs.Table.{bytes_at};
ghost use Rattle.table.specs.Rows.{row_named};
ghost use Rattle.name_marks.specs.Marks.{mark_of};
ghost use Rattle.sheet_steps.specs.Noted.{Marked};

use name_marks::MARKS_AT;
use row_lookup::row_named;
use table::read::word;

// None of the n rows from first on has the name of len bytes from start on. They are looked at only where the word at its mark is above the first of them.
pub fn is_new(
    half: &[u32],
    sheet: &[u8],
    first: usize,
    n: usize,
    start: usize,
    len: usize,
    mark: usize,
) -> bool
    requires { (mark ≡ mark_of (bytes_at sheet.now start len)) × (mark < 512) × (first < 4294967296) × (n < 4294967296) × (start < 4294967296) × (len < 4294967296) × Marked half.now sheet.now (first + n) }
    ensures { result ≡ is_none (row_named half.now sheet.now (bytes_at sheet.now start len) first n) }
{
    if word(half, MARKS_AT + mark) <= first {
        return true;
    }
    row_named(half, sheet, first, n, sheet, start, len).is_none()
}
