// Whether there is a path from a source type to a destination type.
#![tactic(auto)]

ghost use Rattle.std.specs.Prelude.{◌≡◌, List, ℕ};
ghost use Rattle.datatype.specs.Paths.{has_path, paths_to};
ghost use Rattle.datatype.specs.WellFormed.{WellFormed};
ghost use Rattle.table.specs.Table.{decode, type_at};
ghost use Rattle.paths.specs.Steps.{int_and_real, Turns};

use paths::Turn;
use paths::dimensions::same_dimensions;
use paths::types::{inner_types, kind_at};
use table::read::type_word;
use table::{ARRAY, BASE, COMPOUND, FIRST, INT, MOST_TYPES, REAL, ROWS};

// Of two kinds, one is int and the other real.
fn int_and_real(from: usize, to: usize) -> bool
    ensures { result ≡ int_and_real from to }
{
    if from == INT {
        to == REAL
    } else if from == REAL {
        to == INT
    } else {
        false
    }
}

fn path_turn(
    source_half: &[u32],
    source_type: usize,
    destination_half: &[u32],
    destination_type: usize,
) -> Turn
    ensures { (ts td : List ℕ) → Turns has_path paths_to source_half.now ts source_type destination_half.now td destination_type result }
{
    let from = kind_at(source_half, source_type);
    let to = kind_at(destination_half, destination_type);
    if to != from {
        return Turn::Answer(int_and_real(from, to));
    }
    if to == COMPOUND {
        return Turn::Lists;
    }
    if to != ARRAY {
        return Turn::Answer(true);
    }
    if !same_dimensions(source_half, source_type, destination_half, destination_type) {
        return Turn::Answer(false);
    }
    Turn::Bases(
        type_word(source_half, source_type, BASE),
        type_word(destination_half, destination_type, BASE),
    )
}

// Whether there is a path from the source type to the destination type, both to this depth.
fn path_to(
    source_half: &[u32],
    source_sheet: &[u8],
    source_type: usize,
    destination_half: &[u32],
    destination_sheet: &[u8],
    destination_type: usize,
    depth: usize,
) -> bool
    requires { WellFormed (decode depth source_half.now source_sheet.now source_type) × WellFormed (decode depth destination_half.now destination_sheet.now destination_type) }
    ensures { result ≡ has_path (decode depth source_half.now source_sheet.now source_type) (decode depth destination_half.now destination_sheet.now destination_type) }
{
    if depth == 0 {
        return true;
    }
    match path_turn(source_half, source_type, destination_half, destination_type) {
        Turn::Answer(a) => a,
        Turn::Bases(k, l) => path_to(
            source_half,
            source_sheet,
            k,
            destination_half,
            destination_sheet,
            l,
            depth - 1,
        ),
        Turn::Lists => {
            let first = type_word(destination_half, destination_type, FIRST);
            let n = type_word(destination_half, destination_type, ROWS);
            for i in (0..n).rev() {
                if let Some(inner) = inner_types(
                    source_half,
                    source_sheet,
                    source_type,
                    destination_half,
                    destination_sheet,
                    first + i,
                ) {
                    if !path_to(
                        source_half,
                        source_sheet,
                        inner.source,
                        destination_half,
                        destination_sheet,
                        inner.destination,
                        depth - 1,
                    ) {
                        return false;
                    }
                }
            }
            true
        }
    }
}

// Whether there is a path from the source type to the destination type.
pub fn has_path(
    source_half: &[u32],
    source_sheet: &[u8],
    source_type: usize,
    destination_half: &[u32],
    destination_sheet: &[u8],
    destination_type: usize,
) -> bool
    requires { WellFormed (type_at source_half.now source_sheet.now source_type) × WellFormed (type_at destination_half.now destination_sheet.now destination_type) }
    ensures { result ≡ has_path (type_at source_half.now source_sheet.now source_type) (type_at destination_half.now destination_sheet.now destination_type) }
{
    path_to(
        source_half,
        source_sheet,
        source_type,
        destination_half,
        destination_sheet,
        destination_type,
        MOST_TYPES,
    )
}
