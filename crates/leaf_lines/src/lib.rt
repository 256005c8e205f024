// The lines of a type's leaves: their length, and their bytes behind the header.
#![tactic(auto)]

ghost use Rattle.std.specs.Prelude.{◌≡◌, List, ◌++◌, ℕ, ◌+◌, ◌*◌, ◌≤◌, length};
ghost use Rattle.table.specs.Table.{type_at};
ghost use Rattle.text.specs.Written.{written, Wrote};
ghost use Rattle.leaf_columns.specs.Columns.{Length};
ghost use Rattle.leaf_lines.specs.LeafList.{header, line_at, leaf_lines};

use leaf_columns::{line_len, put_line};
use paths::leaf::leaf_at;
use table::read::type_word;
use table::{CLASS, SIZE};
use text_writing::put_bytes;

// The length of the line at this byte of a type, 0 where no leaf starts.
fn leaf_len(half: &[u32], type_number: usize, byte: usize) -> usize
    requires { byte ≤ 4096 }
    ensures { (t : List ℕ) → Length (line_at (type_at half.now t type_number) byte) result }
{
    let Some(k) = leaf_at(half, type_number, byte) else {
        return 0;
    };
    let size = type_word(half, k, SIZE);
    let class = type_word(half, k, CLASS);
    line_len(byte, size, class)
}

// The length of the lines of the first bytes of a type.
pub fn lines_len(half: &[u32], type_number: usize, size: usize) -> usize
    requires { size ≤ 4096 }
    ensures { ((t : List ℕ) → result ≡ length (leaf_lines (type_at half.now t type_number) 0 size)) × (result ≤ 47 * 4096) }
{
    let mut n: usize = 0;
    for b in 0..size {
        n += leaf_len(half, type_number, b);
    }
    n
}

// Writes the line at this byte of a type, if a leaf starts there, and answers the next place.
fn put_leaf(list: &mut [u8], at: usize, half: &[u32], type_number: usize, byte: usize) -> usize
    requires { (byte ≤ 4096) × ((t : List ℕ) → at + length (line_at (type_at half.now t type_number) byte) ≤ length list.old) }
    ensures { (t : List ℕ) → Wrote list.old at (line_at (type_at half.now t type_number) byte) list.new result }
{
    let Some(k) = leaf_at(half, type_number, byte) else {
        return at;
    };
    let size = type_word(half, k, SIZE);
    let class = type_word(half, k, CLASS);
    put_line(list, at, byte, size, class)
}

// Writes the lines of the first bytes of a type.
fn put_lines(list: &mut [u8], start: usize, half: &[u32], type_number: usize, size: usize)
    requires { (size ≤ 4096) × ((t : List ℕ) → start + length (leaf_lines (type_at half.now t type_number) 0 size) ≤ length list.old) }
    ensures { (t : List ℕ) → list.new ≡ written list.old start (leaf_lines (type_at half.now t type_number) 0 size) }
{
    let mut at = start;
    for byte in 0..size {
        at = put_leaf(list, at, half, type_number, byte);
    }
}

// Writes the header, and the lines behind it.
pub fn put_list(list: &mut [u8], half: &[u32], type_number: usize, size: usize)
    requires { (size ≤ 4096) × ((t : List ℕ) → 14 + length (leaf_lines (type_at half.now t type_number) 0 size) ≤ length list.old) }
    ensures { (t : List ℕ) → list.new ≡ written list.old 0 (header ++ leaf_lines (type_at half.now t type_number) 0 size) }
{
    let start = put_bytes(list, 0, b"at\tsize\tclass\n");
    put_lines(list, start, half, type_number, size);
}
