// Records stored in the table.
ghost use Rattle.std.specs.Prelude.{◌≡◌, ◌+◌, ◌*◌, ◌<◌, ◌≤◌, ◌++◌, length, set, drop, replicate};
ghost use Rattle.std.proofs.Math.Seq.{paste};
ghost use Rattle.table.specs.Table.{rows_word};
ghost use Rattle.table.specs.Records.{row_added, types_cleared};

use crate::read::type_word;
use crate::{ROW_WORDS, ROWS, ROWS_AT, TYPE_WORDS};

// The words of r from a place on.
fn put(half: &mut [u32], place: usize, r: &[u32])
    requires { place + length r.now ≤ length half.old }
    ensures { half.new ≡ paste half.old place r.now (length r.now) }
{
    half[place..place + r.len()].copy_from_slice(r);
}

// The record of a type.
pub fn put_type(half: &mut [u32], type_number: usize, r: [u32; 16])
    requires { (type_number < 64) × (length half.old ≡ 4096) }
    ensures { half.new ≡ paste half.old (16 * type_number) r 16 }
{
    put(half, TYPE_WORDS * type_number, &r);
}

// The record of a row.
pub fn put_row(half: &mut [u32], row: usize, r: [u32; 8])
    requires { (row < 256) × (length half.old ≡ 4096) }
    ensures { half.new ≡ paste half.old (1024 + 8 * row) r 8 }
{
    put(half, ROWS_AT + ROW_WORDS * row, &r);
}

// How many rows a type has.
pub fn put_rows_word(half: &mut [u32], type_number: usize, n: u32)
    requires { (type_number < 64) × (length half.old ≡ 4096) }
    ensures { half.new ≡ set half.old (16 * type_number + 10) n }
{
    let at = TYPE_WORDS * type_number + ROWS;
    half[at] = n;
}

// The record of a row, one more of a type.
pub fn add_row(half: &mut [u32], type_number: usize, row: usize, r: [u32; 8])
    requires { (type_number < 64) × (row < 256) × (length half.old ≡ 4096) × (rows_word half.old type_number ≤ 256) }
    ensures { half.new ≡ row_added half.old type_number row r }
{
    let rows = type_word(half, type_number, ROWS) as u32;
    put_row(half, row, r);
    put_rows_word(half, type_number, rows + 1);
}

// The records of type n and of all behind it: there are no such types.
pub fn clear_types(half: &mut [u32], n: usize)
    requires { (n ≤ 64) × (length half.old ≡ 4096) }
    ensures { half.new ≡ types_cleared half.old n }
{
    half[TYPE_WORDS * n..ROWS_AT].fill(0);
}

// The first n words.
pub fn clear(words: &mut [u32], n: usize)
    requires { n ≤ length words.old }
    ensures { words.new ≡ replicate n 0 ++ drop n words.old }
{
    words[..n].fill(0);
}
