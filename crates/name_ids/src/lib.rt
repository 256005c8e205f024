// Ids of the names of rows, in the first words beside a plan: equal where names are, so that records are converted without their sheets' texts.
#![tactic(auto)]

ghost use Rattle.std.specs.Prelude.{◌≡◌, true, ℕ, ◌+◌, ◌≤◌, ◌<◌, length, get_or};
ghost use Rattle.table.specs.Table.{first_word, rows_word, name_at};
ghost use Rattle.table.specs.Rows.{row_named};
ghost use Rattle.entry_code.specs.Code.{route_in};
ghost use Rattle.plans.specs.PlanWords.{row_code, words_place};
ghost use Rattle.plans.specs.PlanEntries.{NamesPut};
ghost use Rattle.name_ids.specs.Ids.{IdsPut};

use entry_code::{LOOKED_UP, route_in};
use plans::{ENTRY_WORDS, NAMES};
use row_lookup::row_named;
use table::read::{row_word, type_word, word};
use table::{FIRST, MOST_ROWS, MOST_TYPES, NAME, NAME_LENGTH, ROWS};

// So many of a half's rows that those of every type are among them.
fn rows_in(half: &[u32]) -> usize
    ensures { (result ≤ 256) × ((i j : ℕ) → j < 256 → j < first_word half.now i + rows_word half.now i → j < result) }
{
    let mut rows: usize = 0;
    for i in 0..MOST_TYPES {
        let end = type_word(half, i, FIRST) + type_word(half, i, ROWS);
        rows = rows.max(end).min(MOST_ROWS);
    }
    rows
}

// The id of the name of a row of either half: of the first rows of the destination's half the newest that has it, in one word.
fn name_id(
    half: &[u32],
    sheet: &[u8],
    row: usize,
    destination_half: &[u32],
    destination_sheet: &[u8],
    rows: usize,
) -> u32
    requires { rows ≤ 256 }
    ensures { result ≡ row_code (row_named destination_half.now destination_sheet.now (name_at half.now sheet.now row) 0 rows) }
{
    let start = row_word(half, row, NAME);
    let len = row_word(half, row, NAME_LENGTH);
    match row_named(
        destination_half,
        destination_sheet,
        0,
        rows,
        sheet,
        start,
        len,
    ) {
        Some(found) => found as u32 + 1,
        None => 0,
    }
}

// The ids of the names of the first n rows of a half, from word `place` on.
fn put_ids(
    words: &mut [u32],
    place: usize,
    half: &[u32],
    sheet: &[u8],
    n: usize,
    destination_half: &[u32],
    destination_sheet: &[u8],
    rows: usize,
)
    requires { (rows ≤ 256) × (place + n ≤ length words.old) }
    ensures { IdsPut words.old place half.now sheet.now n destination_half.now destination_sheet.now rows words.new }
{
    for j in 0..n {
        words[place + j] = name_id(half, sheet, j, destination_half, destination_sheet, rows);
    }
}

// Whether the rows of no one of the entries are looked through.
fn none_looked_up(words: &[u32], entries: usize) -> bool
    requires { entries ≤ 4096 }
    ensures { result ≡ true → (i : ℕ) → i < entries → route_in (get_or words.now (words_place i) 0) < 7 }
{
    for i in 0..entries {
        let route = route_in(word(words, NAMES + ENTRY_WORDS * i));
        if LOOKED_UP <= route {
            return false;
        }
    }
    true
}

// The ids of all names, where one of the entries wants them.
pub fn put_names(
    entries: usize,
    source_half: &[u32],
    source_sheet: &[u8],
    destination_half: &[u32],
    destination_sheet: &[u8],
    words: &mut [u32],
)
    requires { (entries ≤ 4096) × (words_place entries ≤ length words.old) }
    ensures { NamesPut words.old entries source_half.now source_sheet.now destination_half.now destination_sheet.now words.new }
{
    if none_looked_up(words, entries) {
        return;
    }
    let rows = rows_in(destination_half);
    put_ids(
        words,
        0,
        source_half,
        source_sheet,
        rows_in(source_half),
        destination_half,
        destination_sheet,
        rows,
    );
    put_ids(
        words,
        MOST_ROWS,
        destination_half,
        destination_sheet,
        rows,
        destination_half,
        destination_sheet,
        rows,
    );
}
