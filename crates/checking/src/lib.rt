// Checks 3 to 7 and 12 of a converting call: two sheets, the path between their types, the symbols, the count and the room.
#![tactic(auto)]

ghost use Rattle.std.specs.Prelude.{◌≡◌, List, ℕ, ◌≤◌, length};
ghost use Rattle.runs.specs.Run.{has_room};
ghost use Rattle.two_sheets.specs.TwoSheets.{ReadAs, Both};
ghost use Rattle.conversion.specs.Call.{form_of, source_of, background_of, RecordsSay, TypesSay, SheetsSay};

use answer::Answer;
use path_search::has_path;
use symbol_sets::keeps_symbols;
use table::read::type_word;
use table::{HALF, SIZE};
use two_sheets::{TypeNumbers, read_sheets};

// "6 COUNT: n above 65,536"
const MOST_RECORDS: u64 = 65536;

// Whether the buffers, by their lengths, have room for so many source records and as many destination records: `out` is the one that is written.
fn has_room(
    in_place: bool,
    count: usize,
    source_size: usize,
    destination_size: usize,
    out: usize,
    other: usize,
) -> bool
    requires { (count ≤ 65536) × (source_size ≤ 4096) × (destination_size ≤ 4096) }
    ensures { result ≡ has_room (form_of in_place) count source_size destination_size (source_of in_place out other) (background_of in_place out other) }
{
    if in_place {
        if out < count * source_size {
            return false;
        }
        if out < count * destination_size {
            return false;
        }
        return count * destination_size <= other;
    }
    if other < count * source_size {
        return false;
    }
    count * destination_size <= out
}

// Checks 6 and 7, of types that were read.
pub fn check_records(
    in_place: bool,
    count: u64,
    out: usize,
    other: usize,
    source_half: &[u32],
    source_type: usize,
    destination_half: &[u32],
    destination_type: usize,
) -> Result<TypeNumbers, Answer>
    requires { (ss : List ℕ) × (ds : List ℕ) × Both ss source_half.now source_type ds destination_half.now destination_type }
    ensures { (ss ds : List ℕ) → Both ss source_half.now source_type ds destination_half.now destination_type → RecordsSay in_place ss ds count out other source_half.now source_type destination_half.now destination_type result }
{
    if MOST_RECORDS < count {
        return Err(Answer::Count);
    }
    let source_size = type_word(source_half, source_type, SIZE);
    let destination_size = type_word(destination_half, destination_type, SIZE);
    if !has_room(
        in_place,
        count as usize,
        source_size,
        destination_size,
        out,
        other,
    ) {
        return Err(Answer::Room);
    }
    Ok(TypeNumbers {
        source: source_type,
        destination: destination_type,
    })
}

// Checks 5 and 12 before them: the path and the symbols.
#[inline(never)]
pub fn check_types(
    in_place: bool,
    source_sheet: &[u8],
    destination_sheet: &[u8],
    count: u64,
    out: usize,
    other: usize,
    source_half: &[u32],
    source_type: usize,
    destination_half: &[u32],
    destination_type: usize,
) -> Result<TypeNumbers, Answer>
    requires { Both source_sheet.now source_half.now source_type destination_sheet.now destination_half.now destination_type }
    ensures { TypesSay in_place source_sheet.now destination_sheet.now count out other source_half.now source_type destination_half.now destination_type result }
{
    if !has_path(
        source_half,
        source_sheet,
        source_type,
        destination_half,
        destination_sheet,
        destination_type,
    ) {
        return Err(Answer::Path);
    }
    if !keeps_symbols(
        source_half,
        source_sheet,
        source_type,
        destination_half,
        destination_sheet,
        destination_type,
    ) {
        return Err(Answer::Symbols);
    }
    check_records(
        in_place,
        count,
        out,
        other,
        source_half,
        source_type,
        destination_half,
        destination_type,
    )
}

// The same of types in the halves of the table.
fn check_halves(
    in_place: bool,
    source_sheet: &[u8],
    destination_sheet: &[u8],
    count: u64,
    out: usize,
    other: usize,
    table: &[u32],
    types: TypeNumbers,
) -> Result<TypeNumbers, Answer>
    requires { ReadAs source_sheet.now destination_sheet.now table.now (Ok types) × (length table.now ≡ 8192) }
    ensures { SheetsSay in_place source_sheet.now destination_sheet.now count out other table.now result }
{
    let source_half = &table[..HALF];
    let destination_half = &table[HALF..];
    check_types(
        in_place,
        source_sheet,
        destination_sheet,
        count,
        out,
        other,
        source_half,
        types.source,
        destination_half,
        types.destination,
    )
}

// All of them. The table then holds what was read of the sheets.
pub fn check_sheets(
    in_place: bool,
    source_sheet: &[u8],
    destination_sheet: &[u8],
    count: u64,
    out: usize,
    other: usize,
    table: &mut [u32],
) -> Result<TypeNumbers, Answer>
    requires { length table.old ≡ 8192 }
    ensures { SheetsSay in_place source_sheet.now destination_sheet.now count out other table.new result × (length table.new ≡ 8192) }
{
    let types = read_sheets(source_sheet, destination_sheet, table)?;
    check_halves(
        in_place,
        source_sheet,
        destination_sheet,
        count,
        out,
        other,
        table,
        types,
    )
}
