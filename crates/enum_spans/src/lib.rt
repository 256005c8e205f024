// Which rows of a destination enum stand for which significant bits of a source enum: worked out once a call, so that no name is compared in a record.
#![tactic(auto)]

ghost use Rattle.std.specs.Prelude.{◌≡◌, ℕ, ◌+◌, ◌^◌, ◌≤◌, ◌<◌, length, get_or};
ghost use Rattle.table.specs.Table.{first_word, rows_word, layout_at, name_at};
ghost use Rattle.table.specs.Rows.{row_named};
ghost use Rattle.namesakes.specs.Named.{NamesOnce};
ghost use Rattle.plans.specs.PlanWords.{RowsWithin, row_code};
ghost use Rattle.plans.specs.Spans.{RowsIn, SymbolsFormed, WordsPut, SpanPut, CodePut};
ghost use Rattle.enum_spans.specs.Span.{SpanFound};

use namesakes::row_by_hint;
use row_codes::{symbol_rows, value_bits};
use table::read::{layout_at, row_word, type_word};
use table::{FIRST, NAME, NAME_LENGTH, ROWS};

// A wider span has no words, nor has one of more bits than a word.
pub const SPAN_MOST: u64 = 512;

const WORD_BITS: u32 = 32;

const WORD_MOST: u64 = 4294967295;

// Significant bits among which all symbols of an enum are: the lowest, and how many from there on.
#[derive(Clone, Copy)]
pub struct Span {
    pub low: u32,
    pub count: u32,
}

// The least bits that a row has, and those after the largest.
#[derive(Clone, Copy)]
struct Ends {
    low: u64,
    end: u64,
}

// The row of the destination enum that has the name of a source row, in one word. Most often it has the same number.
fn named_row(
    source_half: &[u32],
    source_sheet: &[u8],
    destination_half: &[u32],
    destination_sheet: &[u8],
    destination_type: usize,
    row: usize,
) -> u32
    requires { RowsWithin destination_half.now destination_type × NamesOnce destination_half.now destination_sheet.now (first_word destination_half.now destination_type) (rows_word destination_half.now destination_type) }
    ensures { result ≡ row_code (row_named destination_half.now destination_sheet.now (name_at source_half.now source_sheet.now row) (first_word destination_half.now destination_type) (rows_word destination_half.now destination_type)) }
{
    let first = type_word(destination_half, destination_type, FIRST);
    let rows = type_word(destination_half, destination_type, ROWS);
    let start = row_word(source_half, row, NAME);
    let len = row_word(source_half, row, NAME_LENGTH);
    match row_by_hint(
        destination_half,
        destination_sheet,
        first,
        rows,
        row,
        source_sheet,
        start,
        len,
    ) {
        Some(found) => found as u32 + 1,
        None => 0,
    }
}

// Between which bits the numbers in the n rows from first on are. With no rows the end is below the lowest.
fn ends_of(half: &[u32], first: usize, n: usize, precision: u32) -> Ends
    requires { (first + n ≤ 256) × (precision ≤ 32) × RowsIn half.now precision first n 0 (2 ^ precision) }
    ensures { RowsIn half.now precision first n result.low result.end × (result.low < 4294967296) × (result.end ≤ 2 ^ precision) }
{
    let mut low = WORD_MOST;
    let mut end: u64 = 0;
    for q in 0..n {
        let bits = value_bits(half, first + q, precision);
        low = low.min(bits);
        end = end.max(bits + 1);
    }
    Ends { low, end }
}

// The span of the source type, where there is room for so many words.
pub fn span_of(source_half: &[u32], source_type: usize, room: usize) -> Option<Span>
    requires { SymbolsFormed source_half.now source_type }
    ensures { SpanFound source_half.now source_type room result }
{
    let l = layout_at(source_half, source_type);
    if WORD_BITS < l.precision {
        return None;
    }
    let first = type_word(source_half, source_type, FIRST);
    let e = ends_of(
        source_half,
        first,
        symbol_rows(source_half, source_type),
        l.precision,
    );
    let low = e.low;
    let end = e.end;
    if end <= low {
        return Some(Span { low: 0, count: 0 });
    }
    if (room as u64).min(SPAN_MOST) < end - low {
        return None;
    }
    Some(Span {
        low: low as u32,
        count: (end - low) as u32,
    })
}

// Words of no symbol, as many as `count` from word `base` on.
fn clear(words: &mut [u32], base: usize, count: usize)
    requires { base + count ≤ length words.old }
    ensures { WordsPut words.old base count (λ q. 0) words.new }
{
    words[base..base + count].fill(0);
}

// The word for these bits, where they are among the `count` from `low` on, whose words stand from word `base` on.
fn put_code(words: &mut [u32], base: usize, low: u64, count: usize, bits: u64, code: u32)
    requires { base + count ≤ length words.old }
    ensures { CodePut words.old base low count bits code words.new }
{
    if bits < low {
        return;
    }
    let q = (bits - low) as usize;
    if count <= q {
        return;
    }
    words[base + q] = code;
}

// The rows of the destination enum, into words of no symbol: one row of the source type after the other, so that the newest of a number's rows stays.
fn put_symbols(
    words: &mut [u32],
    base: usize,
    low: u32,
    count: u32,
    source_half: &[u32],
    source_sheet: &[u8],
    destination_half: &[u32],
    destination_sheet: &[u8],
    source_type: usize,
    destination_type: usize,
)
    requires { SymbolsFormed source_half.now source_type × RowsWithin destination_half.now destination_type × NamesOnce destination_half.now destination_sheet.now (first_word destination_half.now destination_type) (rows_word destination_half.now destination_type) × (low + count ≤ 2 ^ (layout_at source_half.now source_type).precision) × (base + count ≤ length words.old) × ((q : ℕ) → q < count → get_or words.old (base + q) 0 ≡ 0) }
    ensures { SpanPut words.old base low count source_half.now source_sheet.now destination_half.now destination_sheet.now source_type destination_type words.new }
{
    let l = layout_at(source_half, source_type);
    let first = type_word(source_half, source_type, FIRST);
    let rows = symbol_rows(source_half, source_type);
    for i in 0..rows {
        let row = first + i;
        let bits = value_bits(source_half, row, l.precision);
        let code = named_row(
            source_half,
            source_sheet,
            destination_half,
            destination_sheet,
            destination_type,
            row,
        );
        put_code(words, base, low as u64, count as usize, bits, code);
    }
}

// The rows of the destination enum for `count` significant bits of the source type from `low` on, from word `base` on.
pub fn put_span(
    words: &mut [u32],
    base: usize,
    low: u32,
    count: u32,
    source_half: &[u32],
    source_sheet: &[u8],
    destination_half: &[u32],
    destination_sheet: &[u8],
    source_type: usize,
    destination_type: usize,
)
    requires { SymbolsFormed source_half.now source_type × RowsWithin destination_half.now destination_type × NamesOnce destination_half.now destination_sheet.now (first_word destination_half.now destination_type) (rows_word destination_half.now destination_type) × (low + count ≤ 2 ^ (layout_at source_half.now source_type).precision) × (base + count ≤ length words.old) }
    ensures { SpanPut words.old base low count source_half.now source_sheet.now destination_half.now destination_sheet.now source_type destination_type words.new }
{
    clear(words, base, count as usize);
    put_symbols(
        words,
        base,
        low,
        count,
        source_half,
        source_sheet,
        destination_half,
        destination_sheet,
        source_type,
        destination_type,
    );
}
