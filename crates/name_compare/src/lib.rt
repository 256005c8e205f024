// Names in a text, compared byte by byte.
#![tactic(auto)]

ghost use Rattle.std.specs.Prelude.{◌≡◌, ◌<◌, get_or};
ghost use Rattle.datatype.specs.Datatype.{same};
ghost use Rattle.table.specs.Table.{bytes_at, name_at};

use table::read::row_word;
use table::{NAME, NAME_LENGTH};

// Byte k of a text, and 0 past its end.
fn byte(t: &[u8], k: usize) -> u8
    ensures { result ≡ get_or t.now k 0 }
{
    if k < t.len() { t[k] } else { 0 }
}

// The n bytes of a from i on are those of b from j on. Both ends are compared first: names of one sheet often begin or end alike.
fn same_bytes(a: &[u8], i: usize, b: &[u8], j: usize, n: usize) -> bool
    requires { (i < 4294967296) × (j < 4294967296) × (n < 4294967296) }
    ensures { result ≡ same (bytes_at a.now i n) (bytes_at b.now j n) }
{
    for k in 0..n / 2 {
        let x = byte(a, i + (n - 1 - k));
        let y = byte(b, j + (n - 1 - k));
        if x != y {
            return false;
        }
        let u = byte(a, i + k);
        let v = byte(b, j + k);
        if u != v {
            return false;
        }
    }
    if n % 2 == 0 {
        return true;
    }
    byte(a, i + n / 2) == byte(b, j + n / 2)
}

// The len bytes of x from start on are the row's name.
pub fn has_name(half: &[u32], sheet: &[u8], row: usize, x: &[u8], start: usize, len: usize) -> bool
    requires { (start < 4294967296) × (len < 4294967296) }
    ensures { result ≡ same (bytes_at x.now start len) (name_at half.now sheet.now row) }
{
    let n = row_word(half, row, NAME_LENGTH);
    if len == n {
        let s = row_word(half, row, NAME);
        same_bytes(x, start, sheet, s, len)
    } else {
        false
    }
}
