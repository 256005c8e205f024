// The tables of the pairs of enums that a plan has, side by side.
#![tactic(auto)]

ghost use Rattle.std.specs.Prelude.{◌≡◌, true, ℕ, ◌+◌, ◌*◌, ◌≤◌, ◌<◌, length, get_or, replicate};
ghost use Rattle.entry_code.specs.Code.{route_in};
ghost use Rattle.plans.specs.PlanWords.{words_place, source_type_of, destination_type_of, Pair, Ready};
ghost use Rattle.symbol_slots.specs.Tables.{table_in, TablesKept, HasTable, HasColumn, Tabled};

use entry_code::{SPAN_LE, route_in};
use plan_words::entry;
use plans::{ENTRY_WORDS, NAMES, PlanEntry};
use symbol_columns::TABLE_WORDS;
use symbol_tables::table_for;
use table::read::word;

// There is room for so many tables, of so many words in all.
pub const TABLES: usize = 4;

pub const TABLES_WORDS: usize = 2176;

// What a source type counts in the word of a pair.
const TYPES: usize = 64;

// The first table whose word 0 is x, or the number of tables.
fn find(tables: &[u64], x: u64) -> usize
    requires { 2176 ≤ length tables.now }
    ensures { (result ≤ 4) × (result < 4 → get_or (table_in tables.now result) 0 0 ≡ x) × ((j : ℕ) → j < 4 → get_or (table_in tables.now j) 0 0 ≡ x → result < 4) }
{
    for j in 0..TABLES {
        if tables[TABLE_WORDS * j] == x {
            return j;
        }
    }
    TABLES
}

// The table of two types, or the number of tables.
pub fn table_at(tables: &[u64], source_type: usize, destination_type: usize) -> usize
    requires { (2176 ≤ length tables.now) × (source_type < 4294967296) × (destination_type < 64) }
    ensures { (result ≤ 4) × (result < 4 → get_or (table_in tables.now result) 0 0 ≡ 64 * source_type + destination_type + 1) × (HasTable tables.now source_type destination_type → result < 4) }
{
    find(tables, (TYPES * source_type + destination_type + 1) as u64)
}

// The table of the enums of an entry, whose words stand from word `place` on, and whether it could be made.
fn put_pair(
    tables: &mut [u64],
    e: PlanEntry,
    source_half: &[u32],
    destination_half: &[u32],
    words: &[u32],
    place: usize,
) -> bool
    requires { (2176 ≤ length tables.old) × (e.source < 4294967296) × (e.destination < 64) × (place + 4 ≤ length words.now) × (4 ≤ route_in (get_or words.now place 0)) × ((p : Pair e.source e.destination source_half.now destination_half.now words.now place) × TablesKept tables.old source_half.now p.source_text destination_half.now p.destination_text) }
    ensures { result ≡ true → ((p : Pair e.source e.destination source_half.now destination_half.now words.now place) → TablesKept tables.old source_half.now p.source_text destination_half.now p.destination_text → TablesKept tables.new source_half.now p.source_text destination_half.now p.destination_text) × HasTable tables.new e.source e.destination × ((s d : ℕ) → HasTable tables.old s d → HasTable tables.new s d) }
{
    let source_type = e.source;
    let destination_type = e.destination;
    if table_at(tables, source_type, destination_type) < TABLES {
        return true;
    }
    let free = find(tables, 0);
    if TABLES <= free {
        return false;
    }
    table_for(
        &mut tables[TABLE_WORDS * free..TABLE_WORDS * free + TABLE_WORDS],
        source_type,
        destination_type,
        source_half,
        destination_half,
        words,
        place,
    )
}

// The same for entry i, unless it leads into no enum.
fn put_entry(
    tables: &mut [u64],
    plan: &[u32],
    i: usize,
    source_half: &[u32],
    destination_half: &[u32],
    words: &[u32],
) -> bool
    requires { (2176 ≤ length tables.old) × ((s : ℕ) × (d : ℕ) × (n : ℕ) × (p : Ready s d plan.now n source_half.now destination_half.now words.now) × (i < n) × TablesKept tables.old source_half.now p.source_text destination_half.now p.destination_text) }
    ensures { result ≡ true → ((s d n : ℕ) (p : Ready s d plan.now n source_half.now destination_half.now words.now) → i < n → TablesKept tables.old source_half.now p.source_text destination_half.now p.destination_text → TablesKept tables.new source_half.now p.source_text destination_half.now p.destination_text) × HasColumn tables.new words.now (words_place i) (source_type_of plan.now i) (destination_type_of plan.now i) × ((s d : ℕ) → HasTable tables.old s d → HasTable tables.new s d) }
{
    let place = NAMES + ENTRY_WORDS * i;
    if route_in(word(words, place)) < SPAN_LE {
        return true;
    }
    let e = entry(plan, i);
    put_pair(tables, e, source_half, destination_half, words, place)
}

// The tables of the enums of so many entries, and whether each entry has a column then.
pub fn put_tables(
    tables: &mut [u64],
    plan: &[u32],
    entries: usize,
    source_half: &[u32],
    destination_half: &[u32],
    words: &[u32],
) -> bool
    requires { (tables.old ≡ replicate 2176 0) × ((s : ℕ) × (d : ℕ) × Ready s d plan.now entries source_half.now destination_half.now words.now) }
    ensures { result ≡ true → Tabled tables.new plan.now entries source_half.now destination_half.now words.now }
{
    for i in 0..entries {
        if !put_entry(tables, plan, i, source_half, destination_half, words) {
            return false;
        }
    }
    true
}
