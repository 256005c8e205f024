// A line judged by itself and the lines before it, which are in the table; an accepted one is added.
#![tactic(auto)]

ghost use Rattle.std.specs.Prelude.{◌≡◌, true, ◌+◌, ◌<◌, length};
ghost use Rattle.number.specs.Parts.{signed_by};
ghost use Rattle.datatype.specs.Datatype.{binary64};
ghost use Rattle.line.specs.Line.Line.{atomic_line, enum_line, value_line, compound_line, member_line, array_line, real_line};
ghost use Rattle.table.specs.Table.{bytes_at, up_to_zero, Holds, type_at, members_at, size_word, first_word, rows_word};
ghost use Rattle.sheet.specs.Sheet.{judged_after, may_place};
ghost use Rattle.name_marks.specs.Marks.{mark_of, end_word};
ghost use Rattle.sheet_steps.specs.Noted.{Marked, Ended, Noted};
ghost use Rattle.sheet_steps.specs.Judged.{so_far_at, Judges};
ghost use Rattle.sheet_steps.specs.Steps.{is_int_at, TypeAdded, RowAdded};

use bits::{BitAt, ByteAt, Order};
use datatype::Word;
use layout::{Class, Layout, Pad};
use name_marks::{mark_of, put_mark, raise_end};
use row_rules::member::may_place;
use row_rules::product::total;
use row_rules::value::may_list;
use sheet_steps::{Counts, MOST_BYTES, MOST_ROWS, MOST_TYPES};
use table::read::{layout_at, type_word};
use table::{CLASS, COMPOUND, ENUM, HALF, INT, REAL, SIZE};
use table_records::{
    array_record, atomic_record, compound_record, enum_record, member_record, real_record,
    value_record,
};

// The record of the next type, where there is room for it.
fn next_type(half: &mut [u32], so_far: Counts, r: [u32; 16]) -> Option<Counts>
    requires { Holds half.old so_far.types so_far.rows }
    ensures { TypeAdded half.old half.new so_far.types so_far.rows r result }
{
    if MOST_TYPES <= so_far.types {
        return None;
    }
    table::store::put_type(half, so_far.types as usize, r);
    Some(Counts {
        types: so_far.types + 1,
        ..so_far
    })
}

// The record of the next row, one more of the newest type, whose name has this mark, where there is room for it.
fn next_row(half: &mut [u32], so_far: Counts, mark: usize, r: [u32; 8]) -> Option<Counts>
    requires { Holds half.old so_far.types so_far.rows × (0 < so_far.types) × (mark < 512) }
    ensures { RowAdded half.old half.new mark so_far.types so_far.rows r result }
{
    if MOST_ROWS <= so_far.rows {
        return None;
    }
    let i = (so_far.types - 1) as usize;
    table::store::add_row(half, i, so_far.rows as usize, r);
    put_mark(half, mark, so_far.rows + 1);
    Some(Counts {
        rows: so_far.rows + 1,
        ..so_far
    })
}

pub fn judge_atomic(half: &mut [u32], sheet: &[u8], so_far: Counts, l: Layout) -> Option<Counts>
    requires { Holds half.old so_far.types so_far.rows × Noted half.old sheet.now so_far.types so_far.rows }
    ensures { Judges half.new sheet.now (judged_after (so_far_at half.old sheet.now so_far.types so_far.rows) (atomic_line l)) result }
{
    if !layout::is_valid(l) {
        return None;
    }
    next_type(half, so_far, atomic_record(l, so_far.rows))
}

// All bits of 8 bytes.
fn double(order: Order) -> Layout
    ensures { result ≡ binary64 order }
{
    Layout {
        class: Class::Int,
        size: ByteAt(8),
        order,
        offset: BitAt(0),
        precision: 64,
        lsb: Pad::Zero,
        msb: Pad::Zero,
        signed: false,
    }
}

pub fn judge_real(
    half: &mut [u32],
    sheet: &[u8],
    so_far: Counts,
    size: u32,
    order: Order,
) -> Option<Counts>
    requires { Holds half.old so_far.types so_far.rows × Noted half.old sheet.now so_far.types so_far.rows }
    ensures { Judges half.new sheet.now (judged_after (so_far_at half.old sheet.now so_far.types so_far.rows) (real_line size order)) result }
{
    if size != 8 {
        return None;
    }
    let l = double(order);
    next_type(half, so_far, real_record(l, so_far.rows))
}

// The type is an int. A class above 5 reads as one too.
fn is_int(half: &[u32], type_number: usize) -> bool
    ensures { result ≡ is_int_at half.now type_number }
{
    let class = type_word(half, type_number, CLASS);
    if class == INT {
        return true;
    }
    REAL < class
}

pub fn judge_enum(half: &mut [u32], sheet: &[u8], so_far: Counts, base: u32) -> Option<Counts>
    requires { Holds half.old so_far.types so_far.rows × Noted half.old sheet.now so_far.types so_far.rows }
    ensures { Judges half.new sheet.now (judged_after (so_far_at half.old sheet.now so_far.types so_far.rows) (enum_line base)) result }
{
    if so_far.types <= base {
        return None;
    }
    let b = base as usize;
    if !is_int(half, b) {
        return None;
    }
    let l = layout_at(half, b);
    next_type(half, so_far, enum_record(l, so_far.rows))
}

pub fn judge_value(
    half: &mut [u32],
    sheet: &[u8],
    so_far: Counts,
    start: usize,
    len: usize,
    negative: bool,
    distance: u64,
) -> Option<Counts>
    requires { Holds half.old so_far.types so_far.rows × Noted half.old sheet.now so_far.types so_far.rows × (start < 4294967296) × (len < 4294967296) }
    ensures { Judges half.new sheet.now (judged_after (so_far_at half.old sheet.now so_far.types so_far.rows) (value_line (bytes_at sheet.now start len) (signed_by negative distance))) result }
{
    if so_far.types == 0 {
        return None;
    }
    let i = (so_far.types - 1) as usize;
    if type_word(half, i, CLASS) != ENUM {
        return None;
    }
    let mark = mark_of(sheet, start, len);
    if !may_list(half, sheet, i, start, len, mark, negative, distance) {
        return None;
    }
    let r = value_record(start as u32, len as u32, negative, distance);
    next_row(half, so_far, mark, r)
}

pub fn judge_compound(half: &mut [u32], sheet: &[u8], so_far: Counts, size: u32) -> Option<Counts>
    requires { Holds half.old so_far.types so_far.rows × Noted half.old sheet.now so_far.types so_far.rows }
    ensures { Judges half.new sheet.now (judged_after (so_far_at half.old sheet.now so_far.types so_far.rows) (compound_line size)) result }
{
    if size < 1 {
        return None;
    }
    if MOST_BYTES < size {
        return None;
    }
    next_type(half, so_far, compound_record(size, so_far.rows))
}

// The compound may have a member of this name and width at offset. The half is lent whole, with a constant for its length, so that compiled code compares no
// row's place with it.
fn may_add(
    half: &[u32],
    sheet: &[u8],
    type_number: usize,
    start: usize,
    len: usize,
    mark: usize,
    offset: usize,
    width: usize,
) -> bool
    requires { (length half.now ≡ 4096) × (mark ≡ mark_of (bytes_at sheet.now start len)) × (mark < 512) × (type_number < 4294967296) × (start < 4294967296) × (len < 4294967296) × (offset < 4294967296) × (width < 4294967296) × Marked half.now sheet.now (first_word half.now type_number + rows_word half.now type_number) × Ended half.now (first_word half.now type_number) (first_word half.now type_number + rows_word half.now type_number) (end_word half.now type_number) }
    ensures { (result ≡ may_place (size_word half.now type_number) (members_at (type_at half.now sheet.now) half.now sheet.now (first_word half.now type_number) (rows_word half.now type_number)) (bytes_at sheet.now start len) offset width) × (result ≡ true → offset + width < 4294967296) }
{
    may_place(
        &half[..HALF],
        sheet,
        type_number,
        start,
        len,
        mark,
        offset,
        width,
    )
}

pub fn judge_member(
    half: &mut [u32],
    sheet: &[u8],
    so_far: Counts,
    start: usize,
    len: usize,
    offset: u32,
    kind: u32,
    word: Word,
) -> Option<Counts>
    requires { Holds half.old so_far.types so_far.rows × Noted half.old sheet.now so_far.types so_far.rows × (start < 4294967296) × (len < 4294967296) }
    ensures { Judges half.new sheet.now (judged_after (so_far_at half.old sheet.now so_far.types so_far.rows) (member_line (bytes_at sheet.now start len) offset kind word)) result }
{
    if so_far.types == 0 {
        return None;
    }
    if so_far.types - 1 <= kind {
        return None;
    }
    let i = (so_far.types - 1) as usize;
    if type_word(half, i, CLASS) != COMPOUND {
        return None;
    }
    let width = type_word(half, kind as usize, SIZE);
    let mark = mark_of(sheet, start, len);
    if !may_add(half, sheet, i, start, len, mark, offset as usize, width) {
        return None;
    }
    let r = member_record(start as u32, len as u32, offset, kind, word);
    let judged = next_row(half, so_far, mark, r);
    raise_end(half, i, (offset as usize + width) as u32);
    judged
}

pub fn judge_array(
    half: &mut [u32],
    sheet: &[u8],
    so_far: Counts,
    base: u32,
    dims: [u32; 4],
) -> Option<Counts>
    requires { Holds half.old so_far.types so_far.rows × Noted half.old sheet.now so_far.types so_far.rows }
    ensures { Judges half.new sheet.now (judged_after (so_far_at half.old sheet.now so_far.types so_far.rows) (array_line base (up_to_zero dims))) result }
{
    if so_far.types <= base {
        return None;
    }
    if dims[0] == 0 {
        return None;
    }
    let size = type_word(half, base as usize, SIZE);
    let bytes = total(dims, size)?;
    next_type(half, so_far, array_record(bytes, base, so_far.rows, dims))
}
