// Which bits of a source record a conversion can turn on, as a whole call: checks in their order, the working table, the mask.
#![tactic(auto)]

ghost use Rattle.std.specs.Prelude.{◌≡◌, length};
ghost use Rattle.table.specs.Table.{type_at};
ghost use Rattle.two_sheets.specs.TwoSheets.{ReadAs, Both};
ghost use Rattle.reaches.specs.Call.{Reaches};
ghost use Rattle.reach.specs.Reaching.{types_checked, sheets_checked, Leaves};

use answer::Answer;
use mask_marking::put_mask;
use path_search::has_path;
use symbol_sets::keeps_symbols;
use table::read::type_word;
use table::store::clear;
use table::{HALF, SIZE, TABLE};
use two_sheets::{TypeNumbers, read_sheets};

// Checks 5, 12 and 7, of types that were read, and the mask.
fn reach_types(
    source_sheet: &[u8],
    destination_sheet: &[u8],
    mask: &mut [u8],
    source_half: &[u32],
    source_type: usize,
    destination_half: &[u32],
    destination_type: usize,
) -> Answer
    requires { Both source_sheet.now source_half.now source_type destination_sheet.now destination_half.now destination_type }
    ensures { Leaves mask.old (types_checked (length mask.old) (type_at source_half.now source_sheet.now source_type) (type_at destination_half.now destination_sheet.now destination_type)) result mask.new }
{
    if !has_path(
        source_half,
        source_sheet,
        source_type,
        destination_half,
        destination_sheet,
        destination_type,
    ) {
        return Answer::Path;
    }
    if !keeps_symbols(
        source_half,
        source_sheet,
        source_type,
        destination_half,
        destination_sheet,
        destination_type,
    ) {
        return Answer::Symbols;
    }
    let bytes = type_word(source_half, source_type, SIZE);
    if mask.len() < bytes {
        return Answer::Room;
    }
    put_mask(
        &mut mask[..bytes],
        source_half,
        source_sheet,
        source_type,
        destination_half,
        destination_sheet,
        destination_type,
    );
    Answer::Done(bytes as u64)
}

// The same of types in the halves of the table.
fn reach_halves(
    source_sheet: &[u8],
    destination_sheet: &[u8],
    mask: &mut [u8],
    table: &[u32],
    types: TypeNumbers,
) -> Answer
    requires { ReadAs source_sheet.now destination_sheet.now table.now (Ok types) × (length table.now ≡ 8192) }
    ensures { Leaves mask.old (sheets_checked source_sheet.now destination_sheet.now (length mask.old)) result mask.new }
{
    let source_half = &table[..HALF];
    let destination_half = &table[HALF..];
    reach_types(
        source_sheet,
        destination_sheet,
        mask,
        source_half,
        types.source,
        destination_half,
        types.destination,
    )
}

// Checks 3 to 7, and the mask. What the table holds afterwards is left open.
fn reach_sheets(
    source_sheet: &[u8],
    destination_sheet: &[u8],
    mask: &mut [u8],
    table: &mut [u32],
) -> Answer
    requires { length table.old ≡ 8192 }
    ensures { Leaves mask.old (sheets_checked source_sheet.now destination_sheet.now (length mask.old)) result mask.new }
{
    match read_sheets(source_sheet, destination_sheet, table) {
        Ok(types) => reach_halves(source_sheet, destination_sheet, mask, table, types),
        Err(fault) => Answer::from(fault),
    }
}

// Marks the bits of a source record that a conversion between the two sheets can turn on.
pub fn reach(
    source_sheet: &[u8],
    destination_sheet: &[u8],
    mask: &mut [u8],
    table: &mut [u32],
) -> Answer
    ensures { Reaches (record { source_sheet = source_sheet.now; destination_sheet = destination_sheet.now; mask = mask.old; table = table.old }) result mask.new table.new }
{
    if table.len() < TABLE {
        return Answer::Table;
    }
    let r = reach_sheets(source_sheet, destination_sheet, mask, &mut table[..TABLE]);
    clear(table, TABLE);
    r
}
