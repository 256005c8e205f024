// The size of one record of a sheet's type.
#![tactic(auto)]

ghost use Rattle.std.specs.Prelude.{◌≡◌, length};
ghost use Rattle.runs.specs.Run.{table_after};
ghost use Rattle.sheet.specs.Sheet.{sheet_of};
ghost use Rattle.record_size.specs.RecordSize.{size_answer, answer_of};

use answer::Answer;
use reading::read_sheet;
use sheet_steps::FaultyLine;
use table::read::type_word;
use table::store::clear;
use table::{HALF, SIZE, TABLE};

// The size of a record of a sheet's type; the sheet is read into half a table.
fn sheet_size(sheet: &[u8], half: &mut [u32]) -> Answer
    requires { length half.old ≡ 4096 }
    ensures { result ≡ size_answer (sheet_of sheet.now) }
{
    match read_sheet(sheet, half) {
        Ok(counts) => Answer::Done(type_word(half, (counts.types - 1) as usize, SIZE) as u64),
        Err(FaultyLine(k)) => Answer::Source(k),
    }
}

// Answers the size, in bytes, of one record of a sheet's type.
pub fn record_size(sheet: &[u8], table: &mut [u32]) -> Answer
    ensures answer { result ≡ answer_of sheet.now (length table.old) }
    ensures table { table.new ≡ table_after result table.old }
{
    if table.len() < TABLE {
        return Answer::Table;
    }
    let a = sheet_size(sheet, &mut table[..HALF]);
    clear(table, TABLE);
    a
}
