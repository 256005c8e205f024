// Two logs compared, as a whole call: checks in the order of documents 01 and 02, the working table, the answer.
#![tactic(auto)]

ghost use Rattle.std.specs.Prelude.{◌≡◌, false, length};
ghost use Rattle.table.specs.Table.{type_at};
ghost use Rattle.runs.specs.Run.{on_checked};
ghost use Rattle.runs.specs.Run.Checked.{refused};
ghost use Rattle.two_sheets.specs.TwoSheets.{first as front, second as back};
ghost use Rattle.conversion.specs.Call.{Passes};
ghost use Rattle.differences.specs.Call.{Compares};
ghost use Rattle.compare_checking.specs.Checks.{sheets_checked};
ghost use Rattle.compare_frames.specs.Listed.{Leaves, list_checked};

use answer::Answer;
use compare_checking::check_logs;
use compare_frames::{TypedLogs, compare_framed, empty_framed};
use table::store::clear;
use table::{HALF, TABLE};

// The types stand in the halves of the table, and no check of the logs refuses.
fn compare_checked(
    x: TypedLogs,
    list: &mut [u8],
    first: &[u8],
    second: &[u8],
    first_sheet: &[u8],
    second_sheet: &[u8],
    table: &[u32],
) -> Answer
    requires { Passes false first_sheet.now second_sheet.now x.count (length second.now) (length first.now) (front table.now) x.first (back table.now) x.second × (length table.now ≡ 8192) }
    ensures { Leaves x.count first.now second.now list.old (list_checked x.count first.now second.now (length list.old) (type_at (front table.now) first_sheet.now x.first) (type_at (back table.now) second_sheet.now x.second)) result list.new }
{
    let first_half = &table[..HALF];
    let second_half = &table[HALF..];
    if x.count == 0 {
        return empty_framed(
            x,
            list,
            first,
            second,
            first_sheet,
            second_sheet,
            first_half,
            second_half,
        );
    }
    compare_framed(
        x,
        list,
        first,
        second,
        first_sheet,
        second_sheet,
        first_half,
        second_half,
    )
}

// Checks 3 to 7, and the list. What the table holds afterwards is left open.
fn compare_within(
    first_sheet: &[u8],
    second_sheet: &[u8],
    count: u64,
    first: &[u8],
    second: &[u8],
    list: &mut [u8],
    table: &mut [u32],
) -> Answer
    requires { length table.old ≡ 8192 }
    ensures { Leaves count first.now second.now list.old (on_checked (list_checked count first.now second.now (length list.old)) refused (sheets_checked first_sheet.now second_sheet.now count (length first.now) (length second.now))) result list.new }
{
    match check_logs(
        first_sheet,
        second_sheet,
        count,
        first.len(),
        second.len(),
        table,
    ) {
        Err(a) => a,
        Ok(types) => compare_checked(
            TypedLogs {
                count: count as usize,
                first: types.source,
                second: types.destination,
            },
            list,
            first,
            second,
            first_sheet,
            second_sheet,
            table,
        ),
    }
}

// Compares two logs: lists each matched leaf where they differ.
pub fn compare(
    first_sheet: &[u8],
    second_sheet: &[u8],
    count: u64,
    first: &[u8],
    second: &[u8],
    list: &mut [u8],
    table: &mut [u32],
) -> Answer
    ensures { Compares (record { first_sheet = first_sheet.now; second_sheet = second_sheet.now; count = count; first = first.now; second = second.now; list = list.old; table = table.old }) result list.new table.new }
{
    if table.len() < TABLE {
        return Answer::Table;
    }
    let r = compare_within(
        first_sheet,
        second_sheet,
        count,
        first,
        second,
        list,
        &mut table[..TABLE],
    );
    clear(table, TABLE);
    r
}
