// The four converting forms as whole calls: checks in the table's order, the working table, answers.
#![tactic(auto)]

ghost use Rattle.std.specs.Prelude.{◌≡◌, ◌≤◌, length};
ghost use Rattle.table.specs.Table.{type_at};
ghost use Rattle.runs.specs.Run.{copying_run, in_place_run, plain, Answers};
ghost use Rattle.runs.specs.Run.Checked.{passed};
ghost use Rattle.two_sheets.specs.TwoSheets.{first, second};
ghost use Rattle.conversion.specs.Call.{LeavesIn, Passes, sheets_checked};

use answer::Answer;
use checking::check_sheets;
use datatype::STOP;
use frames::{copy_framed, replace_framed};
use table::store::clear;
use table::{HALF, TABLE};

// The two types stand in the halves of the table, and no check refuses.
fn convert_checked(
    in_place: bool,
    source_sheet: &[u8],
    destination_sheet: &[u8],
    count: usize,
    handling: u32,
    out: &mut [u8],
    other: &[u8],
    table: &[u32],
    source_type: usize,
    destination_type: usize,
) -> Answer
    requires { Passes in_place source_sheet.now destination_sheet.now count (length out.old) (length other.now) (first table.now) source_type (second table.now) destination_type × (length table.now ≡ 8192) × (handling ≤ 1) }
    ensures { LeavesIn in_place handling count out.old other.now (passed (type_at (first table.now) source_sheet.now source_type) (type_at (second table.now) destination_sheet.now destination_type)) result out.new }
{
    let source_half = &table[..HALF];
    let destination_half = &table[HALF..];
    if in_place {
        return replace_framed(
            handling,
            count,
            source_type,
            destination_type,
            source_sheet,
            destination_sheet,
            out,
            other,
            source_half,
            destination_half,
        );
    }
    copy_framed(
        handling,
        count,
        source_type,
        destination_type,
        source_sheet,
        destination_sheet,
        out,
        other,
        source_half,
        destination_half,
    )
}

// Checks 3 to 7, and the conversion: `out` is the buffer that is written. What the table holds afterwards is left open.
fn convert_within(
    in_place: bool,
    source_sheet: &[u8],
    destination_sheet: &[u8],
    count: u64,
    handling: u32,
    out: &mut [u8],
    other: &[u8],
    table: &mut [u32],
) -> Answer
    requires { (handling ≤ 1) × (length table.old ≡ 8192) }
    ensures { LeavesIn in_place handling count out.old other.now (sheets_checked in_place source_sheet.now destination_sheet.now count (length out.old) (length other.now)) result out.new }
{
    match check_sheets(
        in_place,
        source_sheet,
        destination_sheet,
        count,
        out.len(),
        other.len(),
        table,
    ) {
        Err(a) => a,
        Ok(types) => convert_checked(
            in_place,
            source_sheet,
            destination_sheet,
            count as usize,
            handling,
            out,
            other,
            table,
            types.source,
            types.destination,
        ),
    }
}

// Copying: the destination's own bytes are the background.
pub fn convert_copying(
    source_sheet: &[u8],
    destination_sheet: &[u8],
    count: u64,
    handling: u32,
    source: &[u8],
    destination: &mut [u8],
    table: &mut [u32],
) -> Answer
    ensures { Answers (copying_run source_sheet.now destination_sheet.now count handling source.now destination.old table.old) result destination.new table.new }
{
    if STOP < handling {
        return Answer::Handling;
    }
    if table.len() < TABLE {
        return Answer::Table;
    }
    let r = convert_within(
        false,
        source_sheet,
        destination_sheet,
        count,
        handling,
        destination,
        source,
        &mut table[..TABLE],
    );
    clear(table, TABLE);
    r
}

// Copying, without handling: it stops.
pub fn convert_copying_plain(
    source_sheet: &[u8],
    destination_sheet: &[u8],
    count: u64,
    source: &[u8],
    destination: &mut [u8],
    table: &mut [u32],
) -> Answer
    ensures { Answers (copying_run source_sheet.now destination_sheet.now count plain source.now destination.old table.old) result destination.new table.new }
{
    convert_copying(
        source_sheet,
        destination_sheet,
        count,
        STOP,
        source,
        destination,
        table,
    )
}

// In place, without handling: it stops.
pub fn convert_in_place_plain(
    source_sheet: &[u8],
    destination_sheet: &[u8],
    count: u64,
    buffer: &mut [u8],
    background: &[u8],
    table: &mut [u32],
) -> Answer
    ensures { Answers (in_place_run source_sheet.now destination_sheet.now count plain buffer.old background.now table.old) result buffer.new table.new }
{
    convert_in_place(
        source_sheet,
        destination_sheet,
        count,
        STOP,
        buffer,
        background,
        table,
    )
}

// In place: one buffer, and a separate background.
pub fn convert_in_place(
    source_sheet: &[u8],
    destination_sheet: &[u8],
    count: u64,
    handling: u32,
    buffer: &mut [u8],
    background: &[u8],
    table: &mut [u32],
) -> Answer
    ensures { Answers (in_place_run source_sheet.now destination_sheet.now count handling buffer.old background.now table.old) result buffer.new table.new }
{
    if STOP < handling {
        return Answer::Handling;
    }
    if table.len() < TABLE {
        return Answer::Table;
    }
    let r = convert_within(
        true,
        source_sheet,
        destination_sheet,
        count,
        handling,
        buffer,
        background,
        &mut table[..TABLE],
    );
    clear(table, TABLE);
    r
}
