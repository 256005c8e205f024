// Whether a destination type keeps the symbols of a source type: each symbol of a source enum stands in the destination enum that it is matched with.
// What bounds the work: without an enum in the destination there is nothing to look at. Else the walk meets no other pairs of types than the question for a path
// does, and looks up no name for a member that is an int, bits or a real. The symbols of two enums are looked up once, however often the pair occurs: in a table
// that the reader of sheets made, these are at most 256 by 258 comparisons of names.
#![tactic(auto)]

ghost use Rattle.std.specs.Prelude.{◌≡◌, ◌<◌};
ghost use Rattle.datatype.specs.SymbolSets.{keeps_symbols, keeps_in};
ghost use Rattle.datatype.specs.WellFormed.{WellFormed};
ghost use Rattle.table.specs.Table.{decode, type_at};
ghost use Rattle.paths.specs.Steps.{Turns, Inside};
ghost use Rattle.symbol_sets.specs.Seen.{all_stand, Seen, is_number, any_enum};

use namesakes::namesake;
use paths::dimensions::same_dimensions;
use paths::types::{inner_types, kind_at};
use paths::{Inner, Turn};
use table::read::{row_word, type_word};
use table::{ARRAY, BASE, COMPOUND, ENUM, FIRST, MEMBER_TYPE, MOST_TYPES, ROWS};

// One byte for each pair of a source type and a destination type: this where they are enums whose symbols were looked up, and all stand in the destination.
const PAIRS: usize = 4096;

const STAND: u8 = 1;

// Whether each symbol of the source enum stands in the destination enum.
fn symbols_stand(
    source_half: &[u32],
    source_sheet: &[u8],
    source_type: usize,
    destination_half: &[u32],
    destination_sheet: &[u8],
    destination_type: usize,
) -> bool
    ensures { result ≡ all_stand source_half.now source_sheet.now source_type destination_half.now destination_sheet.now destination_type }
{
    let first_symbol = type_word(source_half, source_type, FIRST);
    let n = type_word(source_half, source_type, ROWS);
    for i in (0..n).rev() {
        let Some(_) = namesake(
            destination_half,
            destination_sheet,
            destination_type,
            source_half,
            source_sheet,
            first_symbol + i,
        ) else {
            return false;
        };
    }
    true
}

// The same, looked up once for each pair.
fn enums_stand(
    source_half: &[u32],
    source_sheet: &[u8],
    source_type: usize,
    destination_half: &[u32],
    destination_sheet: &[u8],
    destination_type: usize,
    seen: &mut [u8],
) -> bool
    requires { (source_type < 64) × (destination_type < 64) × Seen source_half.now source_sheet.now destination_half.now destination_sheet.now seen.old }
    ensures { (result ≡ all_stand source_half.now source_sheet.now source_type destination_half.now destination_sheet.now destination_type) × Seen source_half.now source_sheet.now destination_half.now destination_sheet.now seen.new }
{
    let at = MOST_TYPES * source_type + destination_type;
    if seen[at] == STAND {
        return true;
    }
    if !symbols_stand(
        source_half,
        source_sheet,
        source_type,
        destination_half,
        destination_sheet,
        destination_type,
    ) {
        return false;
    }
    seen[at] = STAND;
    true
}

fn symbol_turn(
    source_half: &[u32],
    source_sheet: &[u8],
    source_type: usize,
    destination_half: &[u32],
    destination_sheet: &[u8],
    destination_type: usize,
    seen: &mut [u8],
) -> Turn
    requires { (source_type < 64) × (destination_type < 64) × Seen source_half.now source_sheet.now destination_half.now destination_sheet.now seen.old }
    ensures { Turns keeps_symbols keeps_in source_half.now source_sheet.now source_type destination_half.now destination_sheet.now destination_type result × Seen source_half.now source_sheet.now destination_half.now destination_sheet.now seen.new }
{
    let from = kind_at(source_half, source_type);
    let to = kind_at(destination_half, destination_type);
    if to != from {
        return Turn::Answer(true);
    }
    if to == ENUM {
        return Turn::Answer(enums_stand(
            source_half,
            source_sheet,
            source_type,
            destination_half,
            destination_sheet,
            destination_type,
            seen,
        ));
    }
    if to == COMPOUND {
        return Turn::Lists;
    }
    if to != ARRAY {
        return Turn::Answer(true);
    }
    if !same_dimensions(source_half, source_type, destination_half, destination_type) {
        return Turn::Answer(true);
    }
    Turn::Bases(
        type_word(source_half, source_type, BASE),
        type_word(destination_half, destination_type, BASE),
    )
}

// A type of this kind has no symbols: an int, bits or a real.
fn is_number(kind: usize) -> bool
    ensures { result ≡ is_number kind }
{
    if kind == ENUM {
        false
    } else if kind == COMPOUND {
        false
    } else {
        kind != ARRAY
    }
}

// The types of the destination's member in the row and of the member of its name in the source compound, where the first may have symbols.
fn symbol_types(
    source_half: &[u32],
    source_sheet: &[u8],
    source_type: usize,
    destination_half: &[u32],
    destination_sheet: &[u8],
    row: usize,
) -> Option<Inner>
    ensures { Inside keeps_symbols source_half.now source_sheet.now source_type destination_half.now destination_sheet.now row result }
{
    let kind = kind_at(
        destination_half,
        row_word(destination_half, row, MEMBER_TYPE),
    );
    if is_number(kind) {
        return None;
    }
    inner_types(
        source_half,
        source_sheet,
        source_type,
        destination_half,
        destination_sheet,
        row,
    )
}

// Whether the destination type keeps the symbols of the source type, both to this depth.
fn keeps_to(
    source_half: &[u32],
    source_sheet: &[u8],
    source_type: usize,
    destination_half: &[u32],
    destination_sheet: &[u8],
    destination_type: usize,
    depth: usize,
    seen: &mut [u8],
) -> bool
    requires { WellFormed (decode depth source_half.now source_sheet.now source_type) × WellFormed (decode depth destination_half.now destination_sheet.now destination_type) × Seen source_half.now source_sheet.now destination_half.now destination_sheet.now seen.old }
    ensures { (result ≡ keeps_symbols (decode depth source_half.now source_sheet.now source_type) (decode depth destination_half.now destination_sheet.now destination_type)) × Seen source_half.now source_sheet.now destination_half.now destination_sheet.now seen.new }
{
    if depth == 0 {
        return true;
    }
    match symbol_turn(
        source_half,
        source_sheet,
        source_type,
        destination_half,
        destination_sheet,
        destination_type,
        seen,
    ) {
        Turn::Answer(a) => a,
        Turn::Bases(k, l) => keeps_to(
            source_half,
            source_sheet,
            k,
            destination_half,
            destination_sheet,
            l,
            depth - 1,
            seen,
        ),
        Turn::Lists => {
            let first = type_word(destination_half, destination_type, FIRST);
            let n = type_word(destination_half, destination_type, ROWS);
            for i in (0..n).rev() {
                if let Some(inner) = symbol_types(
                    source_half,
                    source_sheet,
                    source_type,
                    destination_half,
                    destination_sheet,
                    first + i,
                ) {
                    if !keeps_to(
                        source_half,
                        source_sheet,
                        inner.source,
                        destination_half,
                        destination_sheet,
                        inner.destination,
                        depth - 1,
                        seen,
                    ) {
                        return false;
                    }
                }
            }
            true
        }
    }
}

// Whether one of the types is an enum.
fn has_enum(half: &[u32]) -> bool
    ensures { result ≡ any_enum half.now 64 }
{
    for k in (0..MOST_TYPES).rev() {
        if kind_at(half, k) == ENUM {
            return true;
        }
    }
    false
}

// Whether the destination type keeps the symbols of the source type.
pub fn keeps_symbols(
    source_half: &[u32],
    source_sheet: &[u8],
    source_type: usize,
    destination_half: &[u32],
    destination_sheet: &[u8],
    destination_type: usize,
) -> bool
    requires { WellFormed (type_at source_half.now source_sheet.now source_type) × WellFormed (type_at destination_half.now destination_sheet.now destination_type) }
    ensures { result ≡ keeps_symbols (type_at source_half.now source_sheet.now source_type) (type_at destination_half.now destination_sheet.now destination_type) }
{
    if !has_enum(destination_half) {
        return true;
    }
    let mut seen = [0u8; PAIRS];
    keeps_to(
        source_half,
        source_sheet,
        source_type,
        destination_half,
        destination_sheet,
        destination_type,
        MOST_TYPES,
        &mut seen,
    )
}
