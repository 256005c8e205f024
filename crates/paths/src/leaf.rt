// The leaf that starts at a byte of a type.
ghost use Rattle.std.specs.Prelude.{◌≡◌, List, ℕ};
ghost use Rattle.datatype.specs.Leaves.{leaf_at};
ghost use Rattle.table.specs.Table.{type_at};
ghost use Rattle.paths.specs.Leaf.{leaf_found};
ghost use Rattle.paths.specs.Steps.{LeafStep};

use crate::Step;
use crate::numbers::{minus, remainder};
use crate::types::{kind_at, row_over};
use table::read::{row_word, type_word};
use table::{ARRAY, BASE, COMPOUND, FIRST, MEMBER_OFFSET, MEMBER_TYPE, MOST_TYPES, ROWS, SIZE};

fn leaf_step(half: &[u32], type_number: usize, byte: usize) -> Step
    ensures { LeafStep half.now type_number byte result }
{
    let kind = kind_at(half, type_number);
    if kind == COMPOUND {
        let first = type_word(half, type_number, FIRST);
        let n = type_word(half, type_number, ROWS);
        match row_over(half, first, n, byte) {
            Some(j) => Step::Go(
                row_word(half, j, MEMBER_TYPE),
                minus(byte, row_word(half, j, MEMBER_OFFSET)),
            ),
            None => Step::Gone,
        }
    } else if kind == ARRAY {
        let z = type_word(half, type_number, SIZE);
        let k = type_word(half, type_number, BASE);
        let y = type_word(half, k, SIZE);
        if byte < z {
            Step::Go(k, remainder(byte, y))
        } else {
            Step::Gone
        }
    } else if byte == 0 {
        Step::Here
    } else {
        Step::Gone
    }
}

// The number of the type of the leaf that starts at this byte of a type.
pub fn leaf_at(half: &[u32], type_number: usize, byte: usize) -> Option<usize>
    ensures { (t : List ℕ) → leaf_found half.now t result ≡ leaf_at (type_at half.now t type_number) byte }
{
    let mut k = type_number;
    let mut at = byte;
    for _ in 0..MOST_TYPES {
        match leaf_step(half, k, at) {
            Step::Go(inner, inner_byte) => {
                k = inner;
                at = inner_byte;
            }
            Step::Here => {
                return Some(k);
            }
            Step::Gone => {
                return None;
            }
        }
    }
    None
}
