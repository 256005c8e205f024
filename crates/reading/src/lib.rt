// A whole sheet, line by line, into its half of the table.
#![tactic(auto)]

ghost use Rattle.std.specs.Prelude.{◌≡◌, true, ◌≤◌, length, Some};
ghost use Rattle.line.specs.Read.{next_after, name_in};
ghost use Rattle.table.specs.Table.{Holds};
ghost use Rattle.sheet_steps.specs.Noted.{Noted};
ghost use Rattle.sheet_steps.specs.Judged.{so_far_at, Judges};
ghost use Rattle.sheet_steps.specs.Read.{read_judged, ReadsLines, ReadsSheet};

use judging::{
    judge_array, judge_atomic, judge_compound, judge_enum, judge_member, judge_real, judge_value,
};
use line::{Line, ReadLine};
use line_reading::read_line;
use name_marks::{MARKS_AT, NOTES};
use sheet_steps::{Counts, FaultyLine, MOST_TEXT};
use table::store::{clear, clear_types};

// What a line that was read adds to the table.
fn judge_line(half: &mut [u32], sheet: &[u8], so_far: Counts, r: ReadLine) -> Option<Counts>
    requires { Holds half.old so_far.types so_far.rows × Noted half.old sheet.now so_far.types so_far.rows × (name_in sheet.now r.line ≡ true) × (length sheet.now ≤ 16384) }
    ensures { Judges half.new sheet.now (read_judged sheet.now (Some r) (so_far_at half.old sheet.now so_far.types so_far.rows)) result }
{
    let line = r.line;
    let dims = r.dims;
    match line {
        Line::Atomic(l, _) => judge_atomic(half, sheet, so_far, l),
        Line::Enum(base, _) => judge_enum(half, sheet, so_far, base),
        Line::Value(a, e, negative, distance, _) => judge_value(
            half,
            sheet,
            so_far,
            a,
            e - a,
            negative,
            distance,
        ),
        Line::Compound(size, _) => judge_compound(half, sheet, so_far, size),
        Line::Member(a, e, offset, kind, word, _) => judge_member(
            half,
            sheet,
            so_far,
            a,
            e - a,
            offset,
            kind,
            word,
        ),
        Line::Array(base, _) => judge_array(half, sheet, so_far, base, dims),
        Line::Real(size, order, _) => judge_real(half, sheet, so_far, size, order),
    }
}

// The place behind a line.
fn next_of(line: Line) -> usize
    ensures { result ≡ next_after line }
{
    match line {
        Line::Atomic(_, next) => next,
        Line::Enum(_, next) => next,
        Line::Value(_, _, _, _, next) => next,
        Line::Compound(_, next) => next,
        Line::Member(_, _, _, _, _, next) => next,
        Line::Array(_, next) => next,
        Line::Real(_, _, next) => next,
    }
}

// The lines of a sheet that is not too long. The words for notes are cleared first: what an earlier sheet left there would cost a look at each row.
fn read_lines(sheet: &[u8], half: &mut [u32]) -> Result<Counts, FaultyLine>
    requires { (length sheet.now ≤ 16384) × (length half.old ≡ 4096) }
    ensures { ReadsLines sheet.now half.new result }
{
    clear(&mut half[MARKS_AT..], NOTES);
    let mut at: usize = 0;
    let mut so_far = Counts { types: 0, rows: 0 };
    let mut k: u32 = 1;
    // A line says where the next begins, so no range gives the places.
    while at < sheet.len() {
        let Some(r) = read_line(sheet, at) else {
            return Err(FaultyLine(k));
        };
        let line = r.line;
        let next = next_of(line);
        so_far = judge_line(half, sheet, so_far, r).ok_or(FaultyLine(k))?;
        at = next;
        k += 1;
    }
    if so_far.types == 0 {
        return Err(FaultyLine(k));
    }
    Ok(so_far)
}

// Reads a sheet: its types and rows stand in the table then, or its first faulty line is told.
pub fn read_sheet(sheet: &[u8], half: &mut [u32]) -> Result<Counts, FaultyLine>
    requires { length half.old ≡ 4096 }
    ensures { ReadsSheet sheet.now half.new result }
{
    if MOST_TEXT < sheet.len() {
        return Err(FaultyLine(0));
    }
    let counts = read_lines(sheet, half)?;
    clear_types(half, counts.types as usize);
    Ok(counts)
}
