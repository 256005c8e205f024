// Words of the table, 0 outside it, and the layout in a type's record.
ghost use Rattle.std.specs.Prelude.{◌≡◌, ◌<◌, get_or};
ghost use Rattle.table.specs.Table.{type_word, row_word, layout_at};
ghost use Rattle.table.specs.Words.{Reads};

use crate::codes::{class_of, flag_of, order_of, pad_of};
use crate::{
    CLASS, LSB, MOST_ROWS, MOST_TYPES, MSB, OFFSET, ORDER, PRECISION, ROW_WORDS, ROWS_AT, SIGN,
    SIZE, TYPE_WORDS,
};
use bits::{BitAt, ByteAt};
use layout::Layout;

// The word at a place.
pub fn word(words: &[u32], place: usize) -> usize
    ensures { Reads (get_or words.now place 0) result }
{
    if place < words.len() {
        words[place] as usize
    } else {
        0
    }
}

// The word at a place of a type's record.
pub fn type_word(half: &[u32], type_number: usize, place: usize) -> usize
    requires { place < 16 }
    ensures { Reads (type_word half.now type_number place) result }
{
    if type_number < MOST_TYPES {
        word(half, TYPE_WORDS * type_number + place)
    } else {
        0
    }
}

// The word at a place of a row's record.
pub fn row_word(half: &[u32], row: usize, place: usize) -> usize
    requires { place < 8 }
    ensures { Reads (row_word half.now row place) result }
{
    if row < MOST_ROWS {
        word(half, ROWS_AT + ROW_WORDS * row + place)
    } else {
        0
    }
}

// The layout in a type's record.
pub fn layout_at(half: &[u32], type_number: usize) -> Layout
    ensures { (result ≡ layout_at half.now type_number) × (result.size.0 < 4294967296) }
{
    let class = class_of(type_word(half, type_number, CLASS));
    let size = type_word(half, type_number, SIZE);
    let order = order_of(type_word(half, type_number, ORDER));
    let offset = type_word(half, type_number, OFFSET) as u32;
    let precision = type_word(half, type_number, PRECISION) as u32;
    let lsb = pad_of(type_word(half, type_number, LSB));
    let msb = pad_of(type_word(half, type_number, MSB));
    let signed = flag_of(type_word(half, type_number, SIGN));
    Layout {
        class,
        size: ByteAt(size),
        order,
        offset: BitAt(offset),
        precision,
        lsb,
        msb,
        signed,
    }
}
