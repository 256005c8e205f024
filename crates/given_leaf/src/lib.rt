// What one leaf gives to the step that fits its number into the destination, as STOP names it.
#![tactic(auto)]

ghost use Rattle.std.specs.Prelude.{◌≡◌, List, ℕ, ◌+◌, ◌≤◌, length};
ghost use Rattle.datatype.specs.WellFormed.{WellFormedLeaf};
ghost use Rattle.records.specs.Leaf.{number_in, given_of};
ghost use Rattle.table.specs.Table.{layout_at, leaf_of_type};

use answer::Given;
use bits::ByteAt;
use number::sign::{given_number, number_of};
use placing::raw_at;
use table::read::{layout_at, type_word};
use table::{CLASS, REAL};

// The number of the leaf of the source type at the source byte of src: of a real its 64 bits, else sign and magnitude.
pub fn given_at(src: &[u8], source_byte: usize, source_type: usize, source_half: &[u32]) -> Given
    requires { ((ts : List ℕ) × WellFormedLeaf (leaf_of_type source_half.now ts source_type)) × (source_byte + (layout_at source_half.now source_type).size.0 ≤ length src.now) }
    ensures { (ts : List ℕ) → result ≡ given_of (leaf_of_type source_half.now ts source_type) (number_in (leaf_of_type source_half.now ts source_type) source_byte src.now) }
{
    let l = layout_at(source_half, source_type);
    let raw = raw_at(src, ByteAt(source_byte), l);
    if type_word(source_half, source_type, CLASS) == REAL {
        return Given::Real(raw);
    }
    given_number(number_of(l.signed, l.precision, raw))
}
