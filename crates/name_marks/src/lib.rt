// Notes of a sheet's rows, in the words of its half behind the records: they spare a look at each row.
#![tactic(auto)]

ghost use Rattle.std.specs.Prelude.{◌≡◌, ◌+◌, ◌<◌, get_or, length};
ghost use Rattle.table.specs.Table.{bytes_at};
ghost use Rattle.table.specs.Words.{Reads};
ghost use Rattle.name_marks.specs.Marks.{mark_of, mark_word, end_word, mark_put, end_raised};

use table::read::word;

// From MARKS_AT on a half has a word for each mark, and from END_AT on one for each type; NOTES of them together.
pub const MARKS_AT: usize = 3072;

pub const MARKS: usize = 512;

pub const END_AT: usize = 3584;

pub const NOTES: usize = 576;

// What a mark is multiplied by for each byte more.
const FACTOR: usize = 31;

// Byte k of a text, and 0 past its end.
fn byte(text: &[u8], k: usize) -> usize
    ensures { (result ≡ get_or text.now k 0) × (result < 256) }
{
    if k < text.len() { text[k] as usize } else { 0 }
}

// The mark of the name of len bytes from start on.
pub fn mark_of(text: &[u8], start: usize, len: usize) -> usize
    requires { (start < 4294967296) × (len < 4294967296) }
    ensures { (result ≡ mark_of (bytes_at text.now start len)) × (result < 512) }
{
    let mut mark: usize = 0;
    for at in start..start + len {
        mark = (FACTOR * mark + byte(text, at)) % MARKS;
    }
    mark
}

// The word at the mark of a name.
pub fn marked(half: &[u32], text: &[u8], start: usize, len: usize) -> usize
    requires { (start < 4294967296) × (len < 4294967296) }
    ensures { Reads (mark_word half.now (bytes_at text.now start len)) result }
{
    word(half, MARKS_AT + mark_of(text, start, len))
}

// The number n at a mark.
pub fn put_mark(half: &mut [u32], mark: usize, n: u32)
    requires { (length half.old ≡ 4096) × (mark < 512) }
    ensures { half.new ≡ mark_put half.old mark n }
{
    let at = MARKS_AT + mark;
    half[at] = n;
}

// Where the members of a type end.
pub fn end_of(half: &[u32], type_number: usize) -> usize
    requires { type_number < 4294967296 }
    ensures { Reads (end_word half.now type_number) result }
{
    word(half, END_AT + type_number)
}

// The members of a type end at this byte or behind it.
pub fn raise_end(half: &mut [u32], type_number: usize, end: u32)
    requires { (length half.old ≡ 4096) × (type_number < 64) }
    ensures { half.new ≡ end_raised half.old type_number end }
{
    let at = END_AT + type_number;
    if end <= half[at] {
        return;
    }
    half[at] = end;
}
