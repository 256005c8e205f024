// Which source leaf the leaf at a byte of a destination type is matched with.
#![tactic(auto)]

ghost use Rattle.std.specs.Prelude.{◌≡◌, true, List, ℕ, ◌<◌};
ghost use Rattle.datatype.specs.Datatype.{size};
ghost use Rattle.datatype.specs.WellFormed.{WellFormed};
ghost use Rattle.table.specs.Table.{size_word, type_at};
ghost use Rattle.paths.specs.Leaf.{MatchFound};
ghost use Rattle.paths.specs.Steps.{kind_at, covers, Leads, LeadsIn};

use namesakes::namesake;
use paths::dimensions::same_dimensions;
use paths::numbers::{minus, quotient, remainder};
use paths::types::{gap_end, kind_at, row_end, row_with_byte};
use paths::{Pair, Walk};
use table::read::{row_word, type_word};
use table::{ARRAY, BASE, COMPOUND, FIRST, MEMBER_OFFSET, MEMBER_TYPE, MOST_TYPES, ROWS, SIZE};

// From the destination's row, at a byte of its compound, into the source compound.
fn match_named(
    source_half: &[u32],
    source_sheet: &[u8],
    source_type: usize,
    destination_half: &[u32],
    destination_sheet: &[u8],
    row: usize,
    destination_byte: usize,
) -> Walk
    requires { (kind_at source_half.now source_type ≡ 3) × (covers destination_half.now row destination_byte ≡ true) }
    ensures { LeadsIn source_half.now source_sheet.now source_type destination_half.now destination_sheet.now row destination_byte result }
{
    match namesake(
        source_half,
        source_sheet,
        source_type,
        destination_half,
        destination_sheet,
        row,
    ) {
        Some(m) => {
            let from = row_word(source_half, m, MEMBER_OFFSET);
            let k = row_word(source_half, m, MEMBER_TYPE);
            let l = row_word(destination_half, row, MEMBER_TYPE);
            let offset = row_word(destination_half, row, MEMBER_OFFSET);
            Walk::On(from, k, l, minus(destination_byte, offset))
        }
        None => Walk::Off(row_end(destination_half, row)),
    }
}

// Between two compounds.
fn match_compound(
    source_half: &[u32],
    source_sheet: &[u8],
    source_type: usize,
    destination_half: &[u32],
    destination_sheet: &[u8],
    destination_type: usize,
    destination_byte: usize,
) -> Walk
    requires { (kind_at source_half.now source_type ≡ 3) × (kind_at destination_half.now destination_type ≡ 3) × (destination_byte < size_word destination_half.now destination_type) }
    ensures { Leads source_half.now source_sheet.now source_type destination_half.now destination_sheet.now destination_type destination_byte result }
{
    match row_with_byte(destination_half, destination_type, destination_byte) {
        Some(j) => match_named(
            source_half,
            source_sheet,
            source_type,
            destination_half,
            destination_sheet,
            j,
            destination_byte,
        ),
        None => {
            let first = type_word(destination_half, destination_type, FIRST);
            let n = type_word(destination_half, destination_type, ROWS);
            let z = type_word(destination_half, destination_type, SIZE);
            Walk::Off(gap_end(destination_half, first, n, destination_byte, z))
        }
    }
}

// Between two arrays.
fn match_array(
    source_half: &[u32],
    source_type: usize,
    destination_half: &[u32],
    destination_type: usize,
    destination_byte: usize,
) -> Walk
    requires { (kind_at source_half.now source_type ≡ 4) × (kind_at destination_half.now destination_type ≡ 4) × (destination_byte < size_word destination_half.now destination_type) }
    ensures { (ts td : List ℕ) → Leads source_half.now ts source_type destination_half.now td destination_type destination_byte result }
{
    let z = type_word(destination_half, destination_type, SIZE);
    if !same_dimensions(source_half, source_type, destination_half, destination_type) {
        return Walk::Off(z);
    }
    let l = type_word(destination_half, destination_type, BASE);
    let y = type_word(destination_half, l, SIZE);
    let k = type_word(source_half, source_type, BASE);
    let x = type_word(source_half, k, SIZE);
    Walk::On(
        quotient(destination_byte, y) * x,
        k,
        l,
        remainder(destination_byte, y),
    )
}

fn match_step(
    source_half: &[u32],
    source_sheet: &[u8],
    source_type: usize,
    destination_half: &[u32],
    destination_sheet: &[u8],
    destination_type: usize,
    destination_byte: usize,
) -> Walk
    requires { destination_byte < size_word destination_half.now destination_type }
    ensures { Leads source_half.now source_sheet.now source_type destination_half.now destination_sheet.now destination_type destination_byte result }
{
    let from = kind_at(source_half, source_type);
    let to = kind_at(destination_half, destination_type);
    let z = type_word(destination_half, destination_type, SIZE);
    if to == COMPOUND {
        if from == COMPOUND {
            match_compound(
                source_half,
                source_sheet,
                source_type,
                destination_half,
                destination_sheet,
                destination_type,
                destination_byte,
            )
        } else {
            Walk::Off(z)
        }
    } else if to == ARRAY {
        if from == ARRAY {
            match_array(
                source_half,
                source_type,
                destination_half,
                destination_type,
                destination_byte,
            )
        } else {
            Walk::Off(z)
        }
    } else if destination_byte != 0 {
        Walk::Off(z)
    } else if from == COMPOUND {
        Walk::Off(z)
    } else if from == ARRAY {
        Walk::Off(z)
    } else {
        Walk::Same
    }
}

// The match of the leaf that starts at this byte of the destination type, in the source type.
pub fn match_at(
    source_half: &[u32],
    source_sheet: &[u8],
    source_type: usize,
    destination_half: &[u32],
    destination_sheet: &[u8],
    destination_type: usize,
    destination_byte: usize,
) -> Pair
    requires { WellFormed (type_at source_half.now source_sheet.now source_type) × WellFormed (type_at destination_half.now destination_sheet.now destination_type) × (destination_byte < size (type_at destination_half.now destination_sheet.now destination_type)) }
    ensures { MatchFound source_half.now source_sheet.now source_type destination_half.now destination_sheet.now destination_type destination_byte result }
{
    let mut s = source_type;
    let mut d = destination_type;
    let mut at = destination_byte;
    let mut from: usize = 0;
    for _ in 0..MOST_TYPES {
        match match_step(
            source_half,
            source_sheet,
            s,
            destination_half,
            destination_sheet,
            d,
            at,
        ) {
            Walk::On(further, source, destination, byte) => {
                from += further;
                s = source;
                d = destination;
                at = byte;
            }
            Walk::Same => {
                return Pair::Matched(from, s, d);
            }
            Walk::Off(end) => {
                return Pair::Unmatched(end - at);
            }
        }
    }
    Pair::Unmatched(1)
}
