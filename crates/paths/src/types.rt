// What a type's record and its rows say to a walk.
ghost use Rattle.std.specs.Prelude.{◌≡◌, Bool, ◌<◌};
ghost use Rattle.datatype.specs.Datatype.{Datatype};
ghost use Rattle.table.specs.Table.{size_word, first_word, rows_word};
ghost use Rattle.paths.specs.Steps.{covers, row_over, OverIn, row_end, Nearer, GapEnd, kind_at, Inside};

use crate::Inner;
use crate::numbers::{minus, quotient};
use namesakes::namesake;
use table::read::{row_word, type_word};
use table::{CLASS, CLASSES, FIRST, INT, MEMBER_OFFSET, MEMBER_TYPE, ROWS, SIZE};

// How many rows near a place are looked at before all are.
const NEAR: usize = 16;

// The byte lies in the member in the row. Where the member starts behind the byte its type is not looked at.
fn row_covers(half: &[u32], row: usize, byte: usize) -> bool
    ensures { result ≡ covers half.now row byte }
{
    let offset = row_word(half, row, MEMBER_OFFSET);
    if byte < offset {
        return false;
    }
    let k = row_word(half, row, MEMBER_TYPE);
    let z = type_word(half, k, SIZE);
    byte < offset + z
}

// Of the n rows from first on, the newest whose member has the byte.
pub fn row_over(half: &[u32], first: usize, n: usize, byte: usize) -> Option<usize>
    requires { (first < 4294967296) × (n < 4294967296) }
    ensures { result ≡ row_over half.now first n byte }
{
    for i in (0..n).rev() {
        let j = first + i;
        if row_covers(half, j, byte) {
            return Some(j);
        }
    }
    None
}

// Of the n rows from first on, one whose member has the byte. Rows near `place` among them are looked at first, as if members stood in the order of their
// offsets; where none of these has it, all are.
fn row_near(half: &[u32], first: usize, n: usize, place: usize, byte: usize) -> Option<usize>
    requires { (first < 4294967296) × (n < 4294967296) }
    ensures { OverIn half.now first n byte result }
{
    let mut at = place;
    for _ in 0..NEAR {
        if n <= at {
            return row_over(half, first, n, byte);
        }
        let j = first + at;
        if row_covers(half, j, byte) {
            return Some(j);
        }
        if byte < row_word(half, j, MEMBER_OFFSET) {
            at = minus(at, 1);
        } else {
            at += 1;
        }
    }
    row_over(half, first, n, byte)
}

// The row of a compound whose member has the byte. Where members have one size and the order of their offsets, the first one that is looked at has it.
pub fn row_with_byte(half: &[u32], type_number: usize, byte: usize) -> Option<usize>
    requires { byte < size_word half.now type_number }
    ensures { OverIn half.now (first_word half.now type_number) (rows_word half.now type_number) byte result }
{
    let first = type_word(half, type_number, FIRST);
    let n = type_word(half, type_number, ROWS);
    let z = type_word(half, type_number, SIZE);
    let place = quotient(n * byte, z);
    row_near(half, first, n, place, byte)
}

// Where the member in the row ends.
pub fn row_end(half: &[u32], row: usize) -> usize
    ensures { result ≡ row_end half.now row }
{
    let offset = row_word(half, row, MEMBER_OFFSET);
    let k = row_word(half, row, MEMBER_TYPE);
    offset + type_word(half, k, SIZE)
}

// The lower one of offset and end, where the offset lies behind the byte.
fn nearer(byte: usize, offset: usize, end: usize) -> usize
    requires { byte < end }
    ensures { Nearer byte offset end result }
{
    if byte < offset {
        if offset < end {
            return offset;
        }
    }
    end
}

// Of the n rows from first on, where the next member behind the byte starts; `end` where none does before it.
pub fn gap_end(half: &[u32], first: usize, n: usize, byte: usize, end: usize) -> usize
    requires { (first < 4294967296) × (n < 4294967296) × (byte < end) }
    ensures { GapEnd half.now first 0 n byte end result }
{
    let mut at = end;
    for i in (0..n).rev() {
        let o = row_word(half, first + i, MEMBER_OFFSET);
        at = nearer(byte, o, at);
    }
    at
}

// The types of the destination's member in the row and of the member of its name in the source compound, where it has one.
pub fn inner_types(
    source_half: &[u32],
    source_sheet: &[u8],
    source_type: usize,
    destination_half: &[u32],
    destination_sheet: &[u8],
    row: usize,
) -> Option<Inner>
    ensures { (ask : Datatype → Datatype → Bool) → Inside ask source_half.now source_sheet.now source_type destination_half.now destination_sheet.now row result }
{
    let m = namesake(
        source_half,
        source_sheet,
        source_type,
        destination_half,
        destination_sheet,
        row,
    )?;
    Some(Inner {
        source: row_word(source_half, m, MEMBER_TYPE),
        destination: row_word(destination_half, row, MEMBER_TYPE),
    })
}

// The kind of a type: 0 int, 1 bits, 2 enum, 3 compound, 4 array, 5 real.
pub fn kind_at(half: &[u32], type_number: usize) -> usize
    ensures { result ≡ kind_at half.now type_number }
{
    let class = type_word(half, type_number, CLASS);
    if class < CLASSES { class } else { INT }
}
