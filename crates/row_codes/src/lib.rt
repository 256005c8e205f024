// Rows of enums in one word, 0 for none: found by a span or by ids of names, and turned into significant bits.
#![tactic(auto)]

ghost use Rattle.std.specs.Prelude.{◌≡◌, ◌+◌, ◌*◌, ◌-◌, ◌≤◌, ◌<◌, length, get_or};
ghost use Rattle.number.specs.Number.{bits_of};
ghost use Rattle.number.specs.Parts.{signed_by};
ghost use Rattle.table.specs.Table.{first_word, rows_word, value_at};
ghost use Rattle.plans.specs.PlanWords.{symbol_rows, row_code, span_code, row_alike};
ghost use Rattle.plans.specs.LeafSteps.{all_ones, code_bits, looked_code};

use bits::shift::ones;
use easy::at;
use entry_code::{SPAN_COUNT, SPAN_LOW, SPAN_ROWS};
use number::{NO_SYMBOL, Parts};
use plans::Coded;
use row_lookup::row_numbered;
use table::codes::flag_of;
use table::read::{row_word, type_word, word};
use table::{CLASS, ENUM, FIRST, HIGH, MOST_ROWS, ROWS, VALUE_HIGH, VALUE_LOW, VALUE_SIGN};

// a - b, and 0 where b is larger.
fn minus(a: u64, b: u64) -> u64
    ensures { result ≡ a - b }
{
    if b < a { a - b } else { 0 }
}

// The significant bits of the number in the row, in an enum of this precision.
pub fn value_bits(half: &[u32], row: usize, precision: u32) -> u64
    requires { precision ≤ 64 }
    ensures { result ≡ bits_of precision (value_at half.now row) }
{
    let low = row_word(half, row, VALUE_LOW);
    let high = row_word(half, row, VALUE_HIGH);
    let distance = (low + high * HIGH) as u64;
    if flag_of(row_word(half, row, VALUE_SIGN)) {
        return minus(ones(precision), distance);
    }
    distance
}

fn all_ones(precision: u32) -> Coded
    requires { precision ≤ 64 }
    ensures { result ≡ all_ones precision }
{
    Coded {
        raw: ones(precision),
        kind: NO_SYMBOL,
    }
}

// A row in one word, as significant bits of an enum of this precision.
pub fn code_bits(half: &[u32], code: usize, precision: u32) -> Coded
    requires { precision ≤ 64 }
    ensures { result ≡ code_bits half.now precision code }
{
    if code == 0 {
        return all_ones(precision);
    }
    Coded {
        raw: value_bits(half, code - 1, precision),
        kind: 0,
    }
}

// The row for significant bits in one word, by the span of which the entry's words from `place` on tell.
pub fn span_code(words: &[u32], place: usize, raw: u64) -> usize
    requires { place + 4 ≤ length words.now }
    ensures { (result ≡ span_code words.now place raw) × (result < 4294967296) }
{
    let lowest = at(words, place + SPAN_LOW) as u64;
    if raw < lowest {
        return 0;
    }
    let i = (raw - lowest) as usize;
    if i < at(words, place + SPAN_COUNT) {
        return word(words, at(words, place + SPAN_ROWS) + i);
    }
    0
}

// How many symbols a type has.
pub fn symbol_rows(half: &[u32], type_number: usize) -> usize
    ensures { (result ≡ symbol_rows half.now type_number) × (result < 4294967296) }
{
    if type_word(half, type_number, CLASS) == ENUM {
        type_word(half, type_number, ROWS)
    } else {
        0
    }
}

// Of the n destination rows from first on, the newest whose name has this id, in one word.
fn row_alike(words: &[u32], id: usize, first: usize, n: usize) -> usize
    requires { (first < 4294967296) × (n < 4294967296) }
    ensures { result ≡ row_code (row_alike words.now id first n) }
{
    for i in (0..n).rev() {
        let j = first + i;
        if word(words, MOST_ROWS + j) == id {
            return j + 1;
        }
    }
    0
}

// The row of the destination enum that has the name of a source row, in one word.
fn alike_code(words: &[u32], row: usize, destination_type: usize, destination_half: &[u32]) -> usize
    ensures { result ≡ row_code (row_alike words.now (get_or words.now row 0) (first_word destination_half.now destination_type) (rows_word destination_half.now destination_type)) }
{
    let id = word(words, row);
    let first = type_word(destination_half, destination_type, FIRST);
    row_alike(
        words,
        id,
        first,
        type_word(destination_half, destination_type, ROWS),
    )
}

// The row of the destination enum for the number z of the source type, in one word: the rows are looked through.
pub fn looked_code(
    z: Parts,
    source_type: usize,
    destination_type: usize,
    source_half: &[u32],
    destination_half: &[u32],
    words: &[u32],
) -> usize
    ensures { result ≡ looked_code words.now source_half.now destination_half.now source_type destination_type (signed_by z.negative z.distance) }
{
    let first = type_word(source_half, source_type, FIRST);
    let rows = symbol_rows(source_half, source_type);
    match row_numbered(source_half, first, rows, z.negative, z.distance) {
        Some(row) => alike_code(words, row, destination_type, destination_half),
        None => 0,
    }
}
