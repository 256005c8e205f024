// The table of a pair of enums, which is kept until another pair needs it: by the span of which the plan's words tell, or by halves of the bits of the source's symbols.
#![tactic(auto)]

ghost use Rattle.std.specs.Prelude.{◌≡◌, true, ℕ, ◌+◌, ◌*◌, ◌^◌, ◌≤◌, ◌<◌, length, get_or};
ghost use Rattle.layout.specs.Layout.{Valid};
ghost use Rattle.table.specs.Table.{first_word, layout_at};
ghost use Rattle.entry_code.specs.Code.{route_in};
ghost use Rattle.plans.specs.PlanWords.{translated_code, Pair};
ghost use Rattle.plans.specs.LeafSteps.{code_bits};
ghost use Rattle.symbol_tables.specs.Symbols.{SymbolsKept, TableFor, entry_of, SpanTable, RowsRead};

use bits::shift::{low_bits, ones};
use easy::at;
use entry_code::{LOOKED_UP, SPAN_COUNT, SPAN_LOW, SPAN_ROWS, route_in};
use layout::Layout;
use number::sign::{number_of, split};
use row_codes::{code_bits, looked_code, span_code, symbol_rows, value_bits};
use symbol_keys::{CODES, ENTRY_COUNT, KEY_COUNT, KEYS, PAIR, put_keys};
use table::read::{layout_at, type_word, word};
use table::{FIRST, MOST_ROWS};

// The word of the table that has the span's lowest bits.
const LOWEST: usize = 2;

// The most entries of a span in the table, and bits of an entry.
const MOST_ENTRIES: usize = 512;

const ENTRY_BITS: u32 = 32;

// What an entry has more where there is no symbol.
const NO_ENTRY: u64 = 4294967296;

// Words of the source's symbols: their bits, and their rows in the destination.
const ROWS_WORDS: usize = 512;

// What a source type counts in the word of a pair.
const TYPES: usize = 64;

// ---- by the span

// The entry for a row in one word.
fn entry_of(half: &[u32], code: usize, precision: u32) -> u64
    requires { precision ≤ 32 }
    ensures { result ≡ entry_of precision (code_bits half.now precision code) }
{
    let c = code_bits(half, code, precision);
    let bits = low_bits(c.raw, precision);
    if c.kind == 0 { bits } else { bits + NO_ENTRY }
}

// The entries for so many rows of the words from word `start` on.
fn put_entries(
    table: &mut [u64],
    words: &[u32],
    start: usize,
    count: usize,
    half: &[u32],
    precision: u32,
)
    requires { (544 ≤ length table.old) × (start < 4294967296) × (count ≤ 512) × (precision ≤ 32) }
    ensures { (j : ℕ) → j < count → get_or table.new (16 + j) 0 ≡ entry_of precision (code_bits half.now precision (get_or words.now (start + j) 0)) }
{
    for j in 0..count {
        table[KEYS + j] = entry_of(half, word(words, start + j), precision);
    }
}

// The table of a pair by the span of which the words from word `place` on tell.
fn put_span(
    table: &mut [u64],
    pair: u64,
    words: &[u32],
    place: usize,
    half: &[u32],
    precision: u32,
) -> bool
    requires { (544 ≤ length table.old) × (place + 4 ≤ length words.now) × (precision ≤ 32) }
    ensures { result ≡ true → (get_or table.new 0 0 ≡ pair) × SpanTable table.new words.now place half.now precision × (get_or table.new 1 0 ≤ 512) × (get_or table.new 2 0 < 4294967296) }
{
    let count = at(words, place + SPAN_COUNT);
    if MOST_ENTRIES < count {
        return false;
    }
    let low = at(words, place + SPAN_LOW);
    put_entries(
        table,
        words,
        at(words, place + SPAN_ROWS),
        count,
        half,
        precision,
    );
    table[KEYS + count] = entry_of(half, 0, precision);
    table[PAIR] = pair;
    table[ENTRY_COUNT] = count as u64;
    table[LOWEST] = low as u64;
    table[KEY_COUNT] = 0;
    true
}

// ---- by halves

// The row of the destination enum for significant bits of the source type, whose layout is l, in one word.
fn raw_code(
    raw: u64,
    l: Layout,
    source_type: usize,
    destination_type: usize,
    source_half: &[u32],
    destination_half: &[u32],
    words: &[u32],
    place: usize,
) -> usize
    requires { Valid l × (l ≡ layout_at source_half.now source_type) × (raw < 2 ^ l.precision) × (place + 4 ≤ length words.now) × (4 ≤ route_in (get_or words.now place 0)) }
    ensures { (p : Pair source_type destination_type source_half.now destination_half.now words.now place) → result ≡ translated_code source_half.now p.source_text destination_half.now p.destination_text source_type destination_type raw }
{
    if route_in(at(words, place)) < LOOKED_UP {
        return span_code(words, place, raw);
    }
    let z = split(number_of(l.signed, l.precision, raw));
    looked_code(
        z,
        source_type,
        destination_type,
        source_half,
        destination_half,
        words,
    )
}

// The same for bits that may be too many for the source: 0 then.
fn bits_code(
    bits: u64,
    l: Layout,
    source_type: usize,
    destination_type: usize,
    source_half: &[u32],
    destination_half: &[u32],
    words: &[u32],
    place: usize,
) -> usize
    requires { Valid l × (l ≡ layout_at source_half.now source_type) × (place + 4 ≤ length words.now) × (4 ≤ route_in (get_or words.now place 0)) }
    ensures { bits < 2 ^ l.precision → (p : Pair source_type destination_type source_half.now destination_half.now words.now place) → result ≡ translated_code source_half.now p.source_text destination_half.now p.destination_text source_type destination_type bits }
{
    if ones(l.precision) < bits {
        return 0;
    }
    raw_code(
        bits,
        l,
        source_type,
        destination_type,
        source_half,
        destination_half,
        words,
        place,
    )
}

// The bits of so many symbols of the source type, and their rows in the destination type.
fn read_rows(
    rows: &mut [u64],
    first: usize,
    count: usize,
    l: Layout,
    source_type: usize,
    destination_type: usize,
    source_half: &[u32],
    destination_half: &[u32],
    words: &[u32],
    place: usize,
)
    requires { (512 ≤ length rows.old) × (count ≤ 256) × (first < 4294967296) × (first ≡ first_word source_half.now source_type) × Valid l × (l ≡ layout_at source_half.now source_type) × (place + 4 ≤ length words.now) × (4 ≤ route_in (get_or words.now place 0)) }
    ensures { RowsRead source_type destination_type source_half.now destination_half.now words.now place count rows.new }
{
    for i in 0..count {
        let bits = value_bits(source_half, first + i, l.precision);
        let code = bits_code(
            bits,
            l,
            source_type,
            destination_type,
            source_half,
            destination_half,
            words,
            place,
        );
        rows[i] = bits;
        rows[CODES + i] = code as u64;
    }
}

// The table of a pair by halves.
fn put_halves(
    table: &mut [u64],
    pair: u64,
    source_type: usize,
    destination_type: usize,
    source_half: &[u32],
    destination_half: &[u32],
    words: &[u32],
    place: usize,
    precision: u32,
) -> bool
    requires { (544 ≤ length table.old) × (precision ≡ (layout_at destination_half.now destination_type).precision) × (precision ≤ 64) × Valid (layout_at source_half.now source_type) × (place + 4 ≤ length words.now) × (4 ≤ route_in (get_or words.now place 0)) }
    ensures { result ≡ true → (get_or table.new 0 0 ≡ pair) × TableFor table.new source_type destination_type source_half.now destination_half.now words.now place }
{
    let count = symbol_rows(source_half, source_type);
    if MOST_ROWS < count {
        return false;
    }
    let l = layout_at(source_half, source_type);
    let first = type_word(source_half, source_type, FIRST);
    let mut rows = [0u64; ROWS_WORDS];
    read_rows(
        &mut rows,
        first,
        count,
        l,
        source_type,
        destination_type,
        source_half,
        destination_half,
        words,
        place,
    );
    put_keys(table, pair, &rows, count, destination_half, precision)
}

// ---- either

// The table of a pair, and whether it could be made.
fn put_table(
    table: &mut [u64],
    pair: u64,
    source_type: usize,
    destination_type: usize,
    source_half: &[u32],
    destination_half: &[u32],
    words: &[u32],
    place: usize,
) -> bool
    requires { (544 ≤ length table.old) × (place + 4 ≤ length words.now) × (4 ≤ route_in (get_or words.now place 0)) × Pair source_type destination_type source_half.now destination_half.now words.now place }
    ensures { result ≡ true → (get_or table.new 0 0 ≡ pair) × TableFor table.new source_type destination_type source_half.now destination_half.now words.now place }
{
    let m = layout_at(destination_half, destination_type);
    if route_in(at(words, place)) < LOOKED_UP {
        if m.precision <= ENTRY_BITS {
            return put_span(table, pair, words, place, destination_half, m.precision);
        }
    }
    put_halves(
        table,
        pair,
        source_type,
        destination_type,
        source_half,
        destination_half,
        words,
        place,
        m.precision,
    )
}

// The table of a source type and a destination type, an enum, by the words from word `place` on. It is made where the table is another pair's; if it cannot be, it is no pair's, and false is returned.
pub fn table_for(
    table: &mut [u64],
    source_type: usize,
    destination_type: usize,
    source_half: &[u32],
    destination_half: &[u32],
    words: &[u32],
    place: usize,
) -> bool
    requires { (544 ≤ length table.old) × (source_type < 4294967296) × (destination_type < 64) × (place + 4 ≤ length words.now) × (4 ≤ route_in (get_or words.now place 0)) × ((p : Pair source_type destination_type source_half.now destination_half.now words.now place) × SymbolsKept table.old source_half.now p.source_text destination_half.now p.destination_text) }
    ensures { ((p : Pair source_type destination_type source_half.now destination_half.now words.now place) → SymbolsKept table.old source_half.now p.source_text destination_half.now p.destination_text → SymbolsKept table.new source_half.now p.source_text destination_half.now p.destination_text) × (result ≡ true → get_or table.new 0 0 ≡ 64 * source_type + destination_type + 1) }
{
    let pair = (TYPES * source_type + destination_type + 1) as u64;
    if table[PAIR] == pair {
        return true;
    }
    if put_table(
        table,
        pair,
        source_type,
        destination_type,
        source_half,
        destination_half,
        words,
        place,
    ) {
        return true;
    }
    table[PAIR] = 0;
    false
}
