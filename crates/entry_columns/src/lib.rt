// One entry of a plan in a block of records, by its kind: between two numbers, or two reals, it goes by the words of its types, between a real and another leaf by their layouts, between two enums
// by their table.
#![tactic(auto)]

ghost use Rattle.std.specs.Prelude.{◌≡◌, List, ℕ, ◌+◌, ◌*◌, ◌≤◌, ◌<◌, length, get_or};
ghost use Rattle.layout.specs.Layout.{Valid};
ghost use Rattle.table.specs.Table.{layout_at};
ghost use Rattle.entry_code.specs.Code.{route_in};
ghost use Rattle.plans.specs.PlanWords.{words_place, one_real, Pair};
ghost use Rattle.plans.specs.PlanEntries.{EntryReady};
ghost use Rattle.column_slots.specs.Slots.{Kept};
ghost use Rattle.symbol_slots.specs.Tables.{TablesKept, HasTable, HasColumn};
ghost use Rattle.blocks.specs.Blocks.{each_number, raised_numbers, each_pair, raised_pairs};

use column_slots::words_for;
use columns::{column, raised_in};
use plans::PlanEntry;
use real_columns::{real_column, reals_raised};
use symbol_columns::{TABLE_WORDS, symbol_column, symbols_raised};
use symbol_slots::table_at;
use table::read::type_word;
use table::{CLASS, ENUM, REAL};

// Of the two types, one is a real and the other is none.
fn is_one_real(
    source_half: &[u32],
    source_type: usize,
    destination_half: &[u32],
    destination_type: usize,
) -> bool
    ensures { result ≡ one_real source_half.now source_type destination_half.now destination_type }
{
    let from = type_word(source_half, source_type, CLASS);
    let to = type_word(destination_half, destination_type, CLASS);
    if from == REAL { to != REAL } else { to == REAL }
}

// The leaf of an entry between two numbers, or two reals, in so many records; how many raise an exception is returned.
fn plain_column(
    src: &[u8],
    dst: &mut [u8],
    count: usize,
    source_size: usize,
    destination_size: usize,
    e: PlanEntry,
    source_half: &[u32],
    destination_half: &[u32],
    slots: &mut [u64],
    narrow: &mut [u32],
    wide: &mut [u64],
) -> u64
    requires { Valid (layout_at source_half.now e.source) × Valid (layout_at destination_half.now e.destination) × (e.from + (layout_at source_half.now e.source).size.0 ≤ source_size) × (e.to + (layout_at destination_half.now e.destination).size.0 ≤ destination_size) × Kept slots.old source_half.now destination_half.now × (1024 ≤ length slots.old) × (count ≤ 65536) × (count ≤ length narrow.old) × (count ≤ length wide.old) × (count * source_size ≤ length src.now) × (count * destination_size ≤ length dst.old) }
    ensures { (dst.new ≡ each_number (layout_at source_half.now e.source) (layout_at destination_half.now e.destination) e.to e.from source_size destination_size src.now count dst.old) × (result ≡ raised_numbers (layout_at source_half.now e.source) (layout_at destination_half.now e.destination) e.from source_size src.now count) × (result ≤ count) × Kept slots.new source_half.now destination_half.now }
{
    let w = words_for(
        slots,
        e.source,
        e.destination,
        source_half,
        destination_half,
    );
    column(
        src,
        dst,
        count,
        source_size,
        destination_size,
        e.to,
        e.from,
        w,
        narrow,
        wide,
    )
}

// How many of the same leaves raise one; no record is written.
fn plain_raised(
    src: &[u8],
    count: usize,
    source_size: usize,
    e: PlanEntry,
    source_half: &[u32],
    destination_half: &[u32],
    slots: &mut [u64],
    narrow: &mut [u32],
    wide: &mut [u64],
) -> u64
    requires { Valid (layout_at source_half.now e.source) × Valid (layout_at destination_half.now e.destination) × (e.from + (layout_at source_half.now e.source).size.0 ≤ source_size) × Kept slots.old source_half.now destination_half.now × (1024 ≤ length slots.old) × (count ≤ 65536) × (count ≤ length narrow.old) × (count ≤ length wide.old) × (count * source_size ≤ length src.now) }
    ensures { (result ≡ raised_numbers (layout_at source_half.now e.source) (layout_at destination_half.now e.destination) e.from source_size src.now count) × (result ≤ count) × Kept slots.new source_half.now destination_half.now }
{
    let w = words_for(
        slots,
        e.source,
        e.destination,
        source_half,
        destination_half,
    );
    raised_in(src, count, source_size, e.from, w, narrow, wide)
}

// The leaf of an entry between two enums, which have a table.
fn enum_column(
    src: &[u8],
    dst: &mut [u8],
    count: usize,
    source_size: usize,
    destination_size: usize,
    e: PlanEntry,
    source_half: &[u32],
    destination_half: &[u32],
    slots: &mut [u64],
    wide: &mut [u64],
    tables: &[u64],
) -> u64
    requires { ((k : ℕ) × (words : List ℕ) × (p : Pair e.source e.destination source_half.now destination_half.now words k) × (4 ≤ route_in (get_or words k 0)) × TablesKept tables.now source_half.now p.source_text destination_half.now p.destination_text) × HasTable tables.now e.source e.destination × (e.from + (layout_at source_half.now e.source).size.0 ≤ source_size) × (e.to + (layout_at destination_half.now e.destination).size.0 ≤ destination_size) × Kept slots.old source_half.now destination_half.now × (1024 ≤ length slots.old) × (2176 ≤ length tables.now) × (count ≤ 65536) × (count ≤ length wide.old) × (count * source_size ≤ length src.now) × (count * destination_size ≤ length dst.old) }
    ensures { ((k : ℕ) (words : List ℕ) (p : Pair e.source e.destination source_half.now destination_half.now words k) → 4 ≤ route_in (get_or words k 0) → TablesKept tables.now source_half.now p.source_text destination_half.now p.destination_text → (dst.new ≡ each_pair p e.to e.from source_size destination_size src.now count dst.old) × (result ≡ raised_pairs p e.from source_size src.now count)) × (result ≤ count) × Kept slots.new source_half.now destination_half.now }
{
    let w = words_for(
        slots,
        e.source,
        e.destination,
        source_half,
        destination_half,
    );
    let k = TABLE_WORDS * table_at(tables, e.source, e.destination);
    symbol_column(
        src,
        dst,
        count,
        source_size,
        destination_size,
        e.to,
        e.from,
        w,
        &tables[k..k + TABLE_WORDS],
        wide,
    )
}

// How many of the same leaves raise one; no record is written.
fn enum_raised(
    src: &[u8],
    count: usize,
    source_size: usize,
    e: PlanEntry,
    source_half: &[u32],
    destination_half: &[u32],
    slots: &mut [u64],
    wide: &mut [u64],
    tables: &[u64],
) -> u64
    requires { ((k : ℕ) × (words : List ℕ) × (p : Pair e.source e.destination source_half.now destination_half.now words k) × (4 ≤ route_in (get_or words k 0)) × TablesKept tables.now source_half.now p.source_text destination_half.now p.destination_text) × HasTable tables.now e.source e.destination × (e.from + (layout_at source_half.now e.source).size.0 ≤ source_size) × Kept slots.old source_half.now destination_half.now × (1024 ≤ length slots.old) × (2176 ≤ length tables.now) × (count ≤ 65536) × (count ≤ length wide.old) × (count * source_size ≤ length src.now) }
    ensures { ((k : ℕ) (words : List ℕ) (p : Pair e.source e.destination source_half.now destination_half.now words k) → 4 ≤ route_in (get_or words k 0) → TablesKept tables.now source_half.now p.source_text destination_half.now p.destination_text → result ≡ raised_pairs p e.from source_size src.now count) × (result ≤ count) × Kept slots.new source_half.now destination_half.now }
{
    let w = words_for(
        slots,
        e.source,
        e.destination,
        source_half,
        destination_half,
    );
    let k = TABLE_WORDS * table_at(tables, e.source, e.destination);
    symbols_raised(
        src,
        count,
        source_size,
        e.from,
        w,
        &tables[k..k + TABLE_WORDS],
        wide,
    )
}

// The leaf of an entry, from so many source records to as many destination records; how many raise an exception is returned.
pub fn entry_column(
    src: &[u8],
    dst: &mut [u8],
    count: usize,
    source_size: usize,
    destination_size: usize,
    e: PlanEntry,
    source_half: &[u32],
    destination_half: &[u32],
    slots: &mut [u64],
    narrow: &mut [u32],
    wide: &mut [u64],
    tables: &[u64],
) -> u64
    requires { ((i : ℕ) × (words : List ℕ) × (q : EntryReady source_size destination_size e i source_half.now destination_half.now words) × HasColumn tables.now words (words_place i) e.source e.destination × TablesKept tables.now source_half.now q.pair.source_text destination_half.now q.pair.destination_text) × (2176 ≤ length tables.now) × Kept slots.old source_half.now destination_half.now × (1024 ≤ length slots.old) × (count ≤ 65536) × (count ≤ length narrow.old) × (count ≤ length wide.old) × (count * source_size ≤ length src.now) × (count * destination_size ≤ length dst.old) }
    ensures { ((i : ℕ) (words : List ℕ) (p : Pair e.source e.destination source_half.now destination_half.now words (words_place i)) → HasColumn tables.now words (words_place i) e.source e.destination → TablesKept tables.now source_half.now p.source_text destination_half.now p.destination_text → (dst.new ≡ each_pair p e.to e.from source_size destination_size src.now count dst.old) × (result ≡ raised_pairs p e.from source_size src.now count)) × (result ≤ count) × Kept slots.new source_half.now destination_half.now }
{
    if type_word(destination_half, e.destination, CLASS) == ENUM {
        return enum_column(
            src,
            dst,
            count,
            source_size,
            destination_size,
            e,
            source_half,
            destination_half,
            slots,
            wide,
            tables,
        );
    }
    if is_one_real(source_half, e.source, destination_half, e.destination) {
        return real_column(
            src,
            dst,
            count,
            source_size,
            destination_size,
            e.to,
            e.from,
            e.source,
            e.destination,
            source_half,
            destination_half,
            wide,
        );
    }
    plain_column(
        src,
        dst,
        count,
        source_size,
        destination_size,
        e,
        source_half,
        destination_half,
        slots,
        narrow,
        wide,
    )
}

// How many of the same leaves raise one; no record is written.
pub fn entry_raised(
    src: &[u8],
    count: usize,
    source_size: usize,
    e: PlanEntry,
    source_half: &[u32],
    destination_half: &[u32],
    slots: &mut [u64],
    narrow: &mut [u32],
    wide: &mut [u64],
    tables: &[u64],
) -> u64
    requires { ((d : ℕ) × (i : ℕ) × (words : List ℕ) × (q : EntryReady source_size d e i source_half.now destination_half.now words) × HasColumn tables.now words (words_place i) e.source e.destination × TablesKept tables.now source_half.now q.pair.source_text destination_half.now q.pair.destination_text) × (2176 ≤ length tables.now) × Kept slots.old source_half.now destination_half.now × (1024 ≤ length slots.old) × (count ≤ 65536) × (count ≤ length narrow.old) × (count ≤ length wide.old) × (count * source_size ≤ length src.now) }
    ensures { ((i : ℕ) (words : List ℕ) (p : Pair e.source e.destination source_half.now destination_half.now words (words_place i)) → HasColumn tables.now words (words_place i) e.source e.destination → TablesKept tables.now source_half.now p.source_text destination_half.now p.destination_text → result ≡ raised_pairs p e.from source_size src.now count) × (result ≤ count) × Kept slots.new source_half.now destination_half.now }
{
    if type_word(destination_half, e.destination, CLASS) == ENUM {
        return enum_raised(
            src,
            count,
            source_size,
            e,
            source_half,
            destination_half,
            slots,
            wide,
            tables,
        );
    }
    if is_one_real(source_half, e.source, destination_half, e.destination) {
        return reals_raised(
            src,
            count,
            source_size,
            e.from,
            e.source,
            e.destination,
            source_half,
            destination_half,
            wide,
        );
    }
    plain_raised(
        src,
        count,
        source_size,
        e,
        source_half,
        destination_half,
        slots,
        narrow,
        wide,
    )
}
