// The leaf list: every leaf of a sheet's type, a line each.
#![tactic(auto)]

ghost use Rattle.std.specs.Prelude.{◌≡◌, List, ℕ, ◌≤◌, length};
ghost use Rattle.runs.specs.Run.{table_after};
ghost use Rattle.table.specs.Table.{size_word, type_at};
ghost use Rattle.sheet.specs.Sheet.{sheet_of};
ghost use Rattle.sheet.specs.Sheet.Sheet.{of_type};
ghost use Rattle.leaves.specs.Call.{answer_of, list_after, Lists};

use answer::Answer;
use leaf_lines::{lines_len, put_list};
use reading::read_sheet;
use sheet_steps::FaultyLine;
use table::read::type_word;
use table::store::clear;
use table::{HALF, SIZE, TABLE};

// The length of the list's header.
const HEADER: usize = 14;

// The list of a type, where there is room for it.
fn list_type(list: &mut [u8], half: &[u32], type_number: usize) -> Answer
    requires { size_word half.now type_number ≤ 4096 }
    ensures { (t : List ℕ) → Lists (of_type (type_at half.now t type_number)) list.old list.new result }
{
    let size = type_word(half, type_number, SIZE);
    let len = HEADER + lines_len(half, type_number, size);
    if list.len() < len {
        return Answer::Room;
    }
    put_list(list, half, type_number, size);
    Answer::Done(len as u64)
}

// The list of a sheet, which is read into half a table.
fn list_sheet(sheet: &[u8], list: &mut [u8], half: &mut [u32]) -> Answer
    requires { length half.old ≡ 4096 }
    ensures { Lists (sheet_of sheet.now) list.old list.new result }
{
    match read_sheet(sheet, half) {
        Ok(counts) => list_type(list, half, (counts.types - 1) as usize),
        Err(FaultyLine(k)) => Answer::Source(k),
    }
}

// Writes the leaf list of a sheet.
pub fn leaf_list(sheet: &[u8], list: &mut [u8], table: &mut [u32]) -> Answer
    ensures answer { result ≡ answer_of sheet.now (length list.old) (length table.old) }
    ensures list { list.new ≡ list_after sheet.now list.old (length table.old) }
    ensures table { table.new ≡ table_after result table.old }
{
    if table.len() < TABLE {
        return Answer::Table;
    }
    let a = list_sheet(sheet, list, &mut table[..HALF]);
    clear(table, TABLE);
    a
}
