// Checks 3 to 7 of a call that compares two logs: two sheets, the path between their types, the count and the room of the logs.
#![tactic(auto)]

ghost use Rattle.std.specs.Prelude.{◌≡◌, length};
ghost use Rattle.two_sheets.specs.TwoSheets.{ReadAs, Both};
ghost use Rattle.compare_checking.specs.Checks.{TypesSay, SheetsSay};

use answer::Answer;
use checking::check_records;
use path_search::has_path;
use table::HALF;
use two_sheets::{TypeNumbers, read_sheets};

// Checks 5 to 7, of types that were read. The second log's records stand where a conversion's destination would.
fn check_types(
    first_sheet: &[u8],
    second_sheet: &[u8],
    count: u64,
    first: usize,
    second: usize,
    first_half: &[u32],
    first_type: usize,
    second_half: &[u32],
    second_type: usize,
) -> Result<TypeNumbers, Answer>
    requires { Both first_sheet.now first_half.now first_type second_sheet.now second_half.now second_type }
    ensures { TypesSay first_sheet.now second_sheet.now count first second first_half.now first_type second_half.now second_type result }
{
    if !has_path(
        first_half,
        first_sheet,
        first_type,
        second_half,
        second_sheet,
        second_type,
    ) {
        return Err(Answer::Path);
    }
    check_records(
        false,
        count,
        second,
        first,
        first_half,
        first_type,
        second_half,
        second_type,
    )
}

// The same of types in the halves of the table.
fn check_halves(
    first_sheet: &[u8],
    second_sheet: &[u8],
    count: u64,
    first: usize,
    second: usize,
    table: &[u32],
    types: TypeNumbers,
) -> Result<TypeNumbers, Answer>
    requires { ReadAs first_sheet.now second_sheet.now table.now (Ok types) × (length table.now ≡ 8192) }
    ensures { SheetsSay first_sheet.now second_sheet.now count first second table.now result }
{
    let first_half = &table[..HALF];
    let second_half = &table[HALF..];
    check_types(
        first_sheet,
        second_sheet,
        count,
        first,
        second,
        first_half,
        types.source,
        second_half,
        types.destination,
    )
}

// Checks 3 to 7 of logs of so many bytes. The table then holds what was read of the sheets.
pub fn check_logs(
    first_sheet: &[u8],
    second_sheet: &[u8],
    count: u64,
    first: usize,
    second: usize,
    table: &mut [u32],
) -> Result<TypeNumbers, Answer>
    requires { length table.old ≡ 8192 }
    ensures { SheetsSay first_sheet.now second_sheet.now count first second table.new result × (length table.new ≡ 8192) }
{
    let types = read_sheets(first_sheet, second_sheet, table)?;
    check_halves(
        first_sheet,
        second_sheet,
        count,
        first,
        second,
        table,
        types,
    )
}
