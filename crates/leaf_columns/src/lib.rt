// A line of the leaf list by its columns: its length, and its bytes at a place.
#![tactic(auto)]

ghost use Rattle.std.specs.Prelude.{◌≡◌, ◌+◌, ◌≤◌, length};
ghost use Rattle.text.specs.Written.{Wrote};
ghost use Rattle.leaf_columns.specs.Columns.{column, class_column, columns, Length};

use table::{BITS, ENUM, REAL};
use text_writing::{decimal_len, put_bytes, put_decimal};

fn class_len(class: usize) -> usize
    ensures { (result ≡ length (class_column class)) × (result ≤ 5) }
{
    if class == ENUM {
        5
    } else if class == REAL {
        5
    } else if class == BITS {
        5
    } else {
        4
    }
}

// The length of the line of a leaf of so many bytes at this byte.
pub fn line_len(byte: usize, size: usize, class: usize) -> usize
    ensures { Length (columns byte size class) result }
{
    decimal_len(byte as u64) + 1 + decimal_len(size as u64) + 1 + class_len(class)
}

fn put_class(list: &mut [u8], at: usize, class: usize) -> usize
    requires { at + length (class_column class) ≤ length list.old }
    ensures { Wrote list.old at (class_column class) list.new result }
{
    if class == ENUM {
        return put_bytes(list, at, b"enum\n");
    }
    if class == REAL {
        return put_bytes(list, at, b"real\n");
    }
    if class == BITS {
        return put_bytes(list, at, b"bits\n");
    }
    put_bytes(list, at, b"int\n")
}

fn put_column(list: &mut [u8], at: usize, n: usize) -> usize
    requires { at + length (column n) ≤ length list.old }
    ensures { Wrote list.old at (column n) list.new result }
{
    let end = put_decimal(list, at, n as u64);
    put_bytes(list, end, b"\t")
}

// Writes the line of a leaf of so many bytes at this byte.
pub fn put_line(list: &mut [u8], at: usize, byte: usize, size: usize, class: usize) -> usize
    requires { at + length (columns byte size class) ≤ length list.old }
    ensures { Wrote list.old at (columns byte size class) list.new result }
{
    let second = put_column(list, at, byte);
    let third = put_column(list, second, size);
    put_class(list, third, class)
}
