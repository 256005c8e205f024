// The records of types and rows, as they are stored. Each type's record has the number of its first row, also where it has no rows.
#![tactic(auto)]

ghost use Rattle.std.specs.Prelude.{◌≡◌, ◌<◌};
ghost use Rattle.table.specs.Records.{layout_record, atomic_record, real_record, enum_record, compound_record, array_record, value_record, member_record};

use datatype::Word;
use layout::Layout;
use table::codes::{class_code, flag_code, order_code, pad_code, word_code};

// Class words.
const ENUM: u32 = 2;

const COMPOUND: u32 = 3;

const ARRAY: u32 = 4;

const REAL: u32 = 5;

// What one of the high half of a distance is worth.
const HIGH: u64 = 4294967296;

#[tactic(auto, unfolding(table::specs::Records::layout_record))]
fn layout_record(class: u32, l: Layout, first: u32) -> [u32; 16]
    requires { l.size.0 < 4294967296 }
    ensures { result ≡ layout_record class l first }
{
    [
        class,
        l.size.0 as u32,
        order_code(l.order),
        l.offset.0,
        l.precision,
        pad_code(l.lsb),
        pad_code(l.msb),
        flag_code(l.signed),
        0,
        first,
        0,
        0,
        0,
        0,
        0,
        0,
    ]
}

pub fn atomic_record(l: Layout, first: u32) -> [u32; 16]
    requires { l.size.0 < 4294967296 }
    ensures { result ≡ atomic_record l first }
{
    layout_record(class_code(l.class), l, first)
}

pub fn real_record(l: Layout, first: u32) -> [u32; 16]
    requires { l.size.0 < 4294967296 }
    ensures { result ≡ real_record l first }
{
    layout_record(REAL, l, first)
}

// An enum without values.
pub fn enum_record(l: Layout, first: u32) -> [u32; 16]
    requires { l.size.0 < 4294967296 }
    ensures { result ≡ enum_record l first }
{
    layout_record(ENUM, l, first)
}

// A compound without members.
#[tactic(auto, unfolding(table::specs::Records::compound_record))]
pub fn compound_record(size: u32, first: u32) -> [u32; 16]
    ensures { result ≡ compound_record size first }
{
    [COMPOUND, size, 0, 0, 0, 0, 0, 0, 0, first, 0, 0, 0, 0, 0, 0]
}

#[tactic(auto, unfolding(table::specs::Records::array_record))]
pub fn array_record(size: u32, base: u32, first: u32, dims: [u32; 4]) -> [u32; 16]
    ensures { result ≡ array_record size base first dims }
{
    [
        ARRAY, size, 0, 0, 0, 0, 0, 0, base, first, 0, dims[0], dims[1], dims[2], dims[3], 0,
    ]
}

#[tactic(auto, unfolding(table::specs::Records::value_record))]
pub fn value_record(start: u32, len: u32, negative: bool, distance: u64) -> [u32; 8]
    ensures { result ≡ value_record start len negative distance }
{
    let low = (distance % HIGH) as u32;
    let high = (distance / HIGH) as u32;
    [start, len, flag_code(negative), low, high, 0, 0, 0]
}

#[tactic(auto, unfolding(table::specs::Records::member_record))]
pub fn member_record(start: u32, len: u32, offset: u32, kind: u32, word: Word) -> [u32; 8]
    ensures { result ≡ member_record start len offset kind word }
{
    [start, len, offset, kind, 0, word_code(word), 0, 0]
}
