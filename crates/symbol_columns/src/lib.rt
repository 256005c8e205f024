// Columns of enums: numbers of the source become those of the destination by the table of the two, without a branch on data.
#![tactic(auto)]

ghost use Rattle.std.specs.Prelude.{◌≡◌, ℕ, ◌+◌, ◌-◌, ◌*◌, ◌/◌, ◌^◌, ◌<◌, ◌≤◌, ◌&&◌, length, if◌then◌else◌, bit_and, nat_eq, nat_le, nat_lt, slice_index};
ghost use Rattle.column_words.specs.Words.{Fits};
ghost use Rattle.blocks.specs.Blocks.{sum_to};
ghost use Rattle.symbol_columns.specs.Tables.{span_entry, step_up, key_for, out_in, none_in, symbol_in, missing_in, symbol_by, missing_by, Usable};
ghost use Rattle.symbol_columns.specs.Columns.{each_symbol, raised_symbols};

use column_words::Words;
use std::num::wrapping_sub_u64;
use wide_loads::load_64;
use wide_stores::store_64;

// Words of a table.
pub const TABLE_WORDS: usize = 544;

// Words of its head: how many entries its span has, the span's lowest bits, and how many keys it has.
pub const ENTRY_COUNT: usize = 1;

pub const LOWEST: usize = 2;

pub const KEY_COUNT: usize = 3;

// Where its entries begin, its keys, and what the keys become.
pub const ENTRIES: usize = 16;

pub const KEYS: usize = 16;

pub const OUTS: usize = 272;

// Half of the most keys.
const LONGEST_STEP: usize = 128;

// An entry is the destination's bits below this, and one more of these where there is no symbol.
const NONE: u64 = 4294967296;

// ---- by halves

// The step, if the key at its end is not above. It is added to where the step begins: a choice between its two ends would be a branch on data.
fn step_to(key: u64, raw: u64, step: usize) -> usize
    ensures { result ≡ (if nat_le key raw then step else 0) }
{
    if key <= raw { step } else { 0 }
}

// So many keys up from the key `at`, if the key there is not above.
fn step_up(table: &[u64], keys: usize, raw: u64, step: usize, at: usize) -> usize
    requires { (at + step < 256) × (544 ≤ length table.now) × (keys ≡ slice_index table.now 3) }
    ensures { (result ≡ step_up table.now raw step at) × (result ≤ at + step) }
{
    let j = at + step;
    let up = step_to(table[KEYS + j], raw, step);
    if j < keys { at + up } else { at }
}

// The last key that is not above.
pub fn find(table: &[u64], raw: u64) -> usize
    requires { (544 ≤ length table.now) × (slice_index table.now 3 ≤ 256) }
    ensures { (result ≡ key_for table.now raw) × (result < 256) }
{
    let keys = table[KEY_COUNT] as usize;
    let mut step: usize = LONGEST_STEP;
    let mut at: usize = 0;
    // The step is halved each time: no range has these steps.
    while 0 < step {
        at = step_up(table, keys, raw, step, at);
        step = step / 2;
    }
    at
}

fn same_or(key: u64, raw: u64, same: u64, other: u64) -> u64
    ensures { result ≡ (if nat_eq key raw then same else other) }
{
    if key == raw { same } else { other }
}

// What bits become of which q is the last key that is not above.
fn out_at(table: &[u64], q: usize, keys: usize, raw: u64, into: u64) -> u64
    requires { (q < 256) × (544 ≤ length table.now) × (slice_index table.now 1 ≡ 0) × (keys ≡ slice_index table.now 3) × (q ≡ key_for table.now raw) }
    ensures { result ≡ out_in table.now into raw }
{
    let out = table[OUTS + q];
    let known = same_or(table[KEYS + q], raw, out, into);
    if q < keys { known } else { into }
}

// 1 where such bits are no key.
fn none_at(table: &[u64], q: usize, keys: usize, raw: u64) -> u64
    requires { (q < 256) × (544 ≤ length table.now) × (slice_index table.now 1 ≡ 0) × (keys ≡ slice_index table.now 3) × (q ≡ key_for table.now raw) }
    ensures { result ≡ none_in table.now raw }
{
    let unknown = same_or(table[KEYS + q], raw, 0, 1);
    if q < keys { unknown } else { 1 }
}

// ---- by the span

fn span_place(raw: u64, low: u64, entries: u64) -> u64
    requires { low + entries ≤ 2 ^ 64 }
    ensures { (result ≡ (if nat_le low raw && nat_lt (raw - low) entries then raw - low else entries)) × (result ≤ entries) }
{
    let k = wrapping_sub_u64(raw, low);
    if k < entries { k } else { entries }
}

fn span_entry(table: &[u64], raw: u64, low: u64, entries: u64) -> u64
    requires { (entries ≤ 512) × (low + entries ≤ 2 ^ 64) × (544 ≤ length table.now) × (low ≡ slice_index table.now 2) × (entries ≡ slice_index table.now 1) }
    ensures { result ≡ span_entry table.now raw }
{
    table[ENTRIES + span_place(raw, low, entries) as usize]
}

// ---- either

// The significant bits in the source's container x.
fn raw_in(x: u64, shift: u32, mask: u64) -> u64
    requires { shift < 64 }
    ensures { result ≡ bit_and (x / 2 ^ shift) mask }
{
    (x >> shift) & mask
}

// Bits of the destination as its container, with its pads that are one.
fn placed(out: u64, into: u64, up: u32, ones: u64) -> u64
    requires { (out ≤ into) × (up < 64) × (into * 2 ^ up + ones < 2 ^ 64) }
    ensures { result ≡ out * 2 ^ up + ones }
{
    (out << up) + ones
}

// Numbers by a table of keys; how many have no symbol is returned.
fn halves_each(t: &mut [u64], count: usize, w: Words, table: &[u64]) -> u64
    requires { Usable table.now w.into × Fits 64 w × (count ≤ length t.old) × (count ≤ 65536) × (544 ≤ length table.now) × (slice_index table.now 1 ≡ 0) }
    ensures { ((i : ℕ) → i < count → slice_index t.new i ≡ symbol_by table.now w (slice_index t.old i)) × (result ≡ sum_to (λ i. missing_by table.now w (slice_index t.old i)) count) × (result ≤ count) }
{
    let shift = w.shift;
    let mask = w.mask;
    let into = w.into;
    let up = w.up;
    let ones = w.ones;
    let keys = table[KEY_COUNT] as usize;
    let mut raised: u64 = 0;
    for i in 0..count {
        let raw = raw_in(t[i], shift, mask);
        let q = find(table, raw);
        raised += none_at(table, q, keys, raw);
        t[i] = placed(out_at(table, q, keys, raw, into), into, up, ones);
    }
    raised
}

// Numbers by a table of a span, by the words that the loop needs.
fn span_run(
    t: &mut [u64],
    count: usize,
    shift: u32,
    mask: u64,
    into: u64,
    up: u32,
    ones: u64,
    table: &[u64],
) -> u64
    requires { Usable table.now into × (shift < 64) × (up < 64) × (into * 2 ^ up + ones < 2 ^ 64) × (count ≤ length t.old) × (count ≤ 65536) × (544 ≤ length table.now) × (1 ≤ slice_index table.now 1) × (slice_index table.now 2 + slice_index table.now 1 ≤ 2 ^ 64) }
    ensures { ((i : ℕ) → i < count → slice_index t.new i ≡ symbol_in table.now shift mask into up ones (slice_index t.old i)) × (result ≡ sum_to (λ i. missing_in table.now shift mask (slice_index t.old i)) count) × (result ≤ count) }
{
    let entries = table[ENTRY_COUNT];
    let low = table[LOWEST];
    let mut raised: u64 = 0;
    for i in 0..count {
        let e = span_entry(table, raw_in(t[i], shift, mask), low, entries);
        raised += e / NONE;
        t[i] = placed(e % NONE, into, up, ones);
    }
    raised
}

// The same where the numbers of both sides begin at the lowest bit of their containers: the loop has no shift.
fn span_lowest(t: &mut [u64], count: usize, mask: u64, into: u64, ones: u64, table: &[u64]) -> u64
    requires { Usable table.now into × (into + ones < 2 ^ 64) × (count ≤ length t.old) × (count ≤ 65536) × (544 ≤ length table.now) × (1 ≤ slice_index table.now 1) × (slice_index table.now 2 + slice_index table.now 1 ≤ 2 ^ 64) }
    ensures { ((i : ℕ) → i < count → slice_index t.new i ≡ symbol_in table.now 0 mask into 0 ones (slice_index t.old i)) × (result ≡ sum_to (λ i. missing_in table.now 0 mask (slice_index t.old i)) count) × (result ≤ count) }
{
    span_run(t, count, 0, mask, into, 0, ones, table)
}

// Numbers by a table of a span.
fn span_each(t: &mut [u64], count: usize, w: Words, table: &[u64]) -> u64
    requires { Usable table.now w.into × Fits 64 w × (count ≤ length t.old) × (count ≤ 65536) × (544 ≤ length table.now) × (1 ≤ slice_index table.now 1) × (slice_index table.now 2 + slice_index table.now 1 ≤ 2 ^ 64) }
    ensures { ((i : ℕ) → i < count → slice_index t.new i ≡ symbol_by table.now w (slice_index t.old i)) × (result ≡ sum_to (λ i. missing_by table.now w (slice_index t.old i)) count) × (result ≤ count) }
{
    if w.shift == 0 {
        if w.up == 0 {
            return span_lowest(t, count, w.mask, w.into, w.ones, table);
        }
    }
    span_run(t, count, w.shift, w.mask, w.into, w.up, w.ones, table)
}

// Each of so many containers of the source as one of the destination, without its background; how many have no symbol is returned.
pub fn translate_each(t: &mut [u64], count: usize, w: Words, table: &[u64]) -> u64
    requires { Usable table.now w.into × Fits 64 w × (count ≤ length t.old) × (count ≤ 65536) × (544 ≤ length table.now) × (slice_index table.now 2 + slice_index table.now 1 ≤ 2 ^ 64) }
    ensures { ((i : ℕ) → i < count → slice_index t.new i ≡ symbol_by table.now w (slice_index t.old i)) × (result ≡ sum_to (λ i. missing_by table.now w (slice_index t.old i)) count) × (result ≤ count) }
{
    if table[ENTRY_COUNT] == 0 {
        return halves_each(t, count, w, table);
    }
    span_each(t, count, w, table)
}

// ---- columns

// The enum at the source byte of so many source records to the destination byte of as many destination records; how many have no symbol is returned.
pub fn symbol_column(
    src: &[u8],
    dst: &mut [u8],
    count: usize,
    source_size: usize,
    destination_size: usize,
    destination_byte: usize,
    source_byte: usize,
    w: Words,
    table: &[u64],
    wide: &mut [u64],
) -> u64
    requires { Usable table.now w.into × Fits 64 w × (544 ≤ length table.now) × (slice_index table.now 2 + slice_index table.now 1 ≤ 2 ^ 64) × (source_byte + w.source_size ≤ source_size) × (destination_byte + w.size ≤ destination_size) × (count ≤ 65536) × (count ≤ length wide.old) × (count * source_size ≤ length src.now) × (count * destination_size ≤ length dst.old) }
    ensures { (dst.new ≡ each_symbol table.now w destination_byte source_byte source_size destination_size src.now count dst.old) × (result ≡ raised_symbols table.now w source_byte source_size src.now count) × (result ≤ count) }
{
    let from = w.source_order;
    let to = w.order;
    load_64(
        src,
        source_byte,
        count,
        source_size,
        w.source_size,
        from,
        wide,
    );
    let raised = translate_each(wide, count, w, table);
    store_64(
        dst,
        destination_byte,
        count,
        destination_size,
        w.size,
        to,
        wide,
        w.keep,
    );
    raised
}

// How many of the same enums have no symbol; nothing is written.
pub fn symbols_raised(
    src: &[u8],
    count: usize,
    source_size: usize,
    source_byte: usize,
    w: Words,
    table: &[u64],
    wide: &mut [u64],
) -> u64
    requires { Usable table.now w.into × Fits 64 w × (544 ≤ length table.now) × (slice_index table.now 2 + slice_index table.now 1 ≤ 2 ^ 64) × (source_byte + w.source_size ≤ source_size) × (count ≤ 65536) × (count ≤ length wide.old) × (count * source_size ≤ length src.now) }
    ensures { (result ≡ raised_symbols table.now w source_byte source_size src.now count) × (result ≤ count) }
{
    let from = w.source_order;
    load_64(
        src,
        source_byte,
        count,
        source_size,
        w.source_size,
        from,
        wide,
    );
    translate_each(wide, count, w, table)
}
