// One matched leaf of two logs: whether its numbers are the same.
#![tactic(auto)]

ghost use Rattle.std.specs.Prelude.{◌≡◌, ◌+◌, ◌≤◌, length};
ghost use Rattle.layout.specs.Layout.{Valid};
ghost use Rattle.number.specs.Number.{number_at};
ghost use Rattle.number.specs.Parts.{meaning, signed_by};
ghost use Rattle.datatype.specs.Datatype.{same};
ghost use Rattle.datatype.specs.Symbols.{same_number};
ghost use Rattle.records.specs.Leaf.{symbols, real_bits};
ghost use Rattle.differences.specs.Same.{same_named, same_symbol, same_in};
ghost use Rattle.table.specs.Table.{first_word, layout_at, name_at};
ghost use Rattle.table.specs.Rows.{row_numbered, name_found};
ghost use Rattle.plans.specs.PlanWords.{leaf_of_type, symbol_rows, is_real};
ghost use Rattle.comparing.specs.Comparing.{EntryFormed, EntrySays};
ghost use Rattle.leaf_compare.specs.Ways.{unless_found, same_worth};

use bits::ByteAt;
use comparing::Differing;
use name_compare::has_name;
use number::Number;
use number::sign::{number_of, split};
use placing::raw_at;
use plans::PlanEntry;
use real_equals::equals_number;
use row_codes::symbol_rows;
use row_lookup::row_numbered;
use table::read::{layout_at, row_word, type_word};
use table::{CLASS, ENUM, FIRST, NAME, NAME_LENGTH, REAL};

// The number in the leaf of a type at a byte of a record.
fn number_at(bytes: &[u8], at: usize, half: &[u32], type_number: usize) -> Number
    requires { Valid (layout_at half.now type_number) × (at + (layout_at half.now type_number).size.0 ≤ length bytes.now) }
    ensures { meaning result ≡ number_at (layout_at half.now type_number) at bytes.now }
{
    let l = layout_at(half, type_number);
    number_of(l.signed, l.precision, raw_at(bytes, ByteAt(at), l))
}

// Two numbers by their signs and distances.
fn same_parts(negative: bool, distance: u64, other_negative: bool, other: u64) -> bool
    ensures { result ≡ same_number (signed_by negative distance) (signed_by other_negative other) }
{
    if negative {
        if other_negative {
            return distance == other;
        }
        return false;
    }
    if other_negative {
        return false;
    }
    distance == other
}

// Numbers compare exactly, whatever their forms.
fn same_number(z: Number, w: Number) -> bool
    ensures { result ≡ same_number (meaning z) (meaning w) }
{
    let p = split(z);
    let q = split(w);
    same_parts(p.negative, p.distance, q.negative, q.distance)
}

// The 64 bits of a real's number.
fn real_bits(z: Number) -> u64
    ensures { result ≡ real_bits (meaning z) }
{
    let p = split(z);
    if p.negative {
        return !p.distance;
    }
    p.distance
}

// The numbers of two leaves of which neither is compared by its symbol.
fn same_worth(z: Number, z_real: bool, w: Number, w_real: bool) -> bool
    ensures { result ≡ same_worth z_real w_real (meaning z) (meaning w) }
{
    if z_real {
        if w_real {
            return same_number(z, w);
        }
        return equals_number(real_bits(z), w);
    }
    if w_real {
        return equals_number(real_bits(w), z);
    }
    same_number(z, w)
}

// The row of a type's symbol for the number z.
fn symbol_row(half: &[u32], type_number: usize, z: Number) -> Option<usize>
    ensures { result ≡ row_numbered half.now (meaning z) (first_word half.now type_number) (symbol_rows half.now type_number) }
{
    let first = type_word(half, type_number, FIRST);
    let rows = symbol_rows(half, type_number);
    let p = split(z);
    row_numbered(half, first, rows, p.negative, p.distance)
}

// Where no row was found the numbers count.
fn unless_found(other: Option<usize>, numbers: bool) -> bool
    ensures { result ≡ unless_found other numbers }
{
    match other {
        Some(_) => false,
        None => numbers,
    }
}

// The names of two rows.
fn same_names(
    first_sheet: &[u8],
    first_half: &[u32],
    row: usize,
    second_sheet: &[u8],
    second_half: &[u32],
    other: usize,
) -> bool
    ensures { result ≡ same (name_at first_half.now first_sheet.now row) (name_at second_half.now second_sheet.now other) }
{
    let start = row_word(first_half, row, NAME);
    let len = row_word(first_half, row, NAME_LENGTH);
    has_name(second_half, second_sheet, other, first_sheet, start, len)
}

// The symbols in two rows, and where there is none in either, whether the numbers are the same.
fn same_rows(
    first_sheet: &[u8],
    first_half: &[u32],
    row: Option<usize>,
    second_sheet: &[u8],
    second_half: &[u32],
    other: Option<usize>,
    numbers: bool,
) -> bool
    ensures { result ≡ same_named (name_found first_half.now first_sheet.now row) (name_found second_half.now second_sheet.now other) numbers }
{
    let Some(i) = row else {
        return unless_found(other, numbers);
    };
    let Some(j) = other else {
        return false;
    };
    same_names(first_sheet, first_half, i, second_sheet, second_half, j)
}

// The numbers of an entry's leaves, by their symbols.
fn same_symbol(
    e: PlanEntry,
    z: Number,
    w: Number,
    first_sheet: &[u8],
    second_sheet: &[u8],
    first_half: &[u32],
    second_half: &[u32],
) -> bool
    ensures { result ≡ same_symbol (symbols (leaf_of_type first_half.now first_sheet.now e.source)) (symbols (leaf_of_type second_half.now second_sheet.now e.destination)) (meaning z) (meaning w) }
{
    let row = symbol_row(first_half, e.source, z);
    let other = symbol_row(second_half, e.destination, w);
    let numbers = same_number(z, w);
    same_rows(
        first_sheet,
        first_half,
        row,
        second_sheet,
        second_half,
        other,
        numbers,
    )
}

// Whether a type is a real.
fn is_real(half: &[u32], type_number: usize) -> bool
    ensures { result ≡ is_real half.now type_number }
{
    type_word(half, type_number, CLASS) == REAL
}

// The numbers of an entry's leaves, by what the second one is.
fn same_leaf(
    e: PlanEntry,
    z: Number,
    w: Number,
    first_sheet: &[u8],
    second_sheet: &[u8],
    first_half: &[u32],
    second_half: &[u32],
) -> bool
    ensures { result ≡ same_in (leaf_of_type first_half.now first_sheet.now e.source) (leaf_of_type second_half.now second_sheet.now e.destination) (meaning z) (meaning w) }
{
    if type_word(second_half, e.destination, CLASS) == ENUM {
        return same_symbol(e, z, w, first_sheet, second_sheet, first_half, second_half);
    }
    let z_real = is_real(first_half, e.source);
    let w_real = is_real(second_half, e.destination);
    same_worth(z, z_real, w, w_real)
}

// The numbers of an entry's leaves in a record of the first log and one of the second, where they differ.
pub fn compare_leaf(
    e: PlanEntry,
    first: &[u8],
    second: &[u8],
    first_sheet: &[u8],
    second_sheet: &[u8],
    first_half: &[u32],
    second_half: &[u32],
) -> Option<Differing>
    requires { EntryFormed (length first.now) (length second.now) e first_sheet.now first_half.now second_sheet.now second_half.now }
    ensures { EntrySays e first_sheet.now first_half.now second_sheet.now second_half.now first.now second.now result }
{
    let z = number_at(first, e.from, first_half, e.source);
    let w = number_at(second, e.to, second_half, e.destination);
    if same_leaf(e, z, w, first_sheet, second_sheet, first_half, second_half) {
        return None;
    }
    Some(Differing {
        first: z,
        second: w,
    })
}
