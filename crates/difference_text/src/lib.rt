// A line of the list of differences by its columns: its length, and its bytes at a place; and the list's header.
#![tactic(auto)]

ghost use Rattle.std.specs.Prelude.{◌≡◌, ◌+◌, ◌≤◌, length};
ghost use Rattle.text.specs.Field.{signed_of};
ghost use Rattle.text.specs.Written.{Wrote};
ghost use Rattle.number.specs.Parts.{meaning};
ghost use Rattle.differences.specs.Differences.{line, header};
ghost use Rattle.comparing.specs.Comparing.{difference_of};
ghost use Rattle.difference_text.specs.Columns.{column, numbers};

use number::Number;
use signed_text::{put_signed, signed_len};
use text_writing::{decimal_len, put_bytes, put_decimal};

// The length of the list's header.
pub const HEADER: usize = 23;

// How many bytes a number has.
fn number_len(z: Number) -> usize
    ensures { (result ≡ length (signed_of (meaning z))) × (result ≤ 20) }
{
    match z {
        Number::Signed(z) => signed_len(z),
        Number::Unsigned(n) => decimal_len(n),
    }
}

// The length of two columns and the newline behind them.
fn numbers_len(first: Number, second: Number) -> usize
    ensures { (result ≡ length (numbers (meaning first) (meaning second))) × (result ≤ 43) }
{
    number_len(first) + 1 + number_len(second) + 2
}

// The length of the line of the two numbers in the leaf at this byte of a record.
pub fn line_len(index: usize, byte: usize, first: Number, second: Number) -> usize
    ensures { (result ≡ length (line (difference_of index byte first second))) × (result ≤ 84) }
{
    decimal_len(index as u64) + 1 + decimal_len(byte as u64) + numbers_len(first, second)
}

// Writes a number, and answers the next place.
fn put_number(list: &mut [u8], at: usize, z: Number) -> usize
    requires { at + length (signed_of (meaning z)) ≤ length list.old }
    ensures { Wrote list.old at (signed_of (meaning z)) list.new result }
{
    match z {
        Number::Signed(z) => put_signed(list, at, z),
        Number::Unsigned(n) => put_decimal(list, at, n),
    }
}

// Writes a tab and the number behind it, and answers the next place.
fn put_column(list: &mut [u8], at: usize, z: Number) -> usize
    requires { at + length (column (meaning z)) ≤ length list.old }
    ensures { Wrote list.old at (column (meaning z)) list.new result }
{
    let next = put_bytes(list, at, b"\t");
    put_number(list, next, z)
}

// Writes two columns and the newline behind them.
fn put_numbers(list: &mut [u8], at: usize, first: Number, second: Number) -> usize
    requires { at + length (numbers (meaning first) (meaning second)) ≤ length list.old }
    ensures { Wrote list.old at (numbers (meaning first) (meaning second)) list.new result }
{
    let next = put_column(list, at, first);
    let end = put_column(list, next, second);
    put_bytes(list, end, b"\n")
}

// Writes the line of the two numbers in the leaf at this byte of a record, and answers the next place.
pub fn put_line(
    list: &mut [u8],
    at: usize,
    index: usize,
    byte: usize,
    first: Number,
    second: Number,
) -> usize
    requires { at + length (line (difference_of index byte first second)) ≤ length list.old }
    ensures { Wrote list.old at (line (difference_of index byte first second)) list.new result }
{
    let next = put_decimal(list, at, index as u64);
    let third = put_column(list, next, Number::Unsigned(byte as u64));
    put_numbers(list, third, first, second)
}

// Writes the header, and answers the next place.
pub fn put_header(list: &mut [u8]) -> usize
    requires { length header ≤ length list.old }
    ensures { Wrote list.old 0 header list.new result }
{
    put_bytes(list, 0, b"record\tat\tfirst\tsecond\n")
}
