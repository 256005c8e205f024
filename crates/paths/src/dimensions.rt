// The dimensions of arrays.
ghost use Rattle.std.specs.Prelude.{◌≡◌};
ghost use Rattle.datatype.specs.Datatype.{same_dimensions};
ghost use Rattle.table.specs.Table.{up_to_zero, dimensions_at};

use table::read::type_word;
use table::{DIMENSIONS, RANKS};

// Those of an array type, 0 for none.
fn dimensions_at(half: &[u32], type_number: usize) -> [u32; 4]
    ensures { up_to_zero result ≡ dimensions_at half.now type_number }
{
    [
        type_word(half, type_number, DIMENSIONS) as u32,
        type_word(half, type_number, DIMENSIONS + 1) as u32,
        type_word(half, type_number, DIMENSIONS + 2) as u32,
        type_word(half, type_number, DIMENSIONS + 3) as u32,
    ]
}

// Whether rank and every dimension are equal, in order. A dimension of 0 ends them.
fn are_equal(a: [u32; 4], b: [u32; 4]) -> bool
    ensures { result ≡ same_dimensions (up_to_zero a) (up_to_zero b) }
{
    for q in 0..RANKS {
        if a[q] != b[q] {
            return false;
        }
        if a[q] == 0 {
            return true;
        }
    }
    true
}

// Whether two array types have the same dimensions.
pub fn same_dimensions(
    source_half: &[u32],
    source_type: usize,
    destination_half: &[u32],
    destination_type: usize,
) -> bool
    ensures { result ≡ same_dimensions (dimensions_at source_half.now source_type) (dimensions_at destination_half.now destination_type) }
{
    are_equal(
        dimensions_at(source_half, source_type),
        dimensions_at(destination_half, destination_type),
    )
}
