// Whether an enum may have a value more.
ghost use Rattle.std.specs.Prelude.{◌≡◌, ◌+◌, ◌-◌, ◌^◌, ◌<◌, leb, eqb};
ghost use Rattle.number.specs.Number.{fitted};
ghost use Rattle.number.specs.Parts.{signed_by};
ghost use Rattle.table.specs.Table.{layout_at, bytes_at, symbols_at, first_word, rows_word};
ghost use Rattle.sheet.specs.Sheet.{may_list};
ghost use Rattle.name_marks.specs.Marks.{mark_of};
ghost use Rattle.sheet_steps.specs.Noted.{Marked};

use crate::name::is_new;
use bits::shift::ones;
use layout::Layout;
use row_lookup::row_numbered;
use table::read::{layout_at, type_word};
use table::{FIRST, ROWS};

// d is a number of p bits.
fn fits_in(d: u64, p: u32) -> bool
    ensures { result ≡ leb d (2 ^ p - 1) }
{
    if 64 < p { true } else { d <= ones(p) }
}

fn minus_one(p: u32) -> u32
    ensures { result ≡ p - 1 }
{
    if p == 0 { 0 } else { p - 1 }
}

// The number is in l's range.
pub fn in_range(l: Layout, negative: bool, distance: u64) -> bool
    ensures { result ≡ eqb (fitted l (signed_by negative distance)).kind 0 }
{
    if l.signed {
        return fits_in(distance, minus_one(l.precision));
    }
    if negative {
        return false;
    }
    fits_in(distance, l.precision)
}

// The enum may have a value of this name and number.
pub fn may_list(
    half: &[u32],
    sheet: &[u8],
    type_number: usize,
    start: usize,
    len: usize,
    mark: usize,
    negative: bool,
    distance: u64,
) -> bool
    requires { (mark ≡ mark_of (bytes_at sheet.now start len)) × (mark < 512) × (start < 4294967296) × (len < 4294967296) × Marked half.now sheet.now (first_word half.now type_number + rows_word half.now type_number) }
    ensures { result ≡ may_list (layout_at half.now type_number) (symbols_at half.now sheet.now (first_word half.now type_number) (rows_word half.now type_number)) (bytes_at sheet.now start len) (signed_by negative distance) }
{
    let first = type_word(half, type_number, FIRST);
    let rows = type_word(half, type_number, ROWS);
    if !is_new(half, sheet, first, rows, start, len, mark) {
        return false;
    }
    if row_numbered(half, first, rows, negative, distance).is_some() {
        return false;
    }
    in_range(layout_at(half, type_number), negative, distance)
}
