// The lines of a sheet, each read column by column at its place of the text.
#![tactic(auto)]

ghost use Rattle.line.specs.Read.{plain_line};
ghost use Rattle.std.specs.Prelude.{◌≡◌, option_map};

use bits::Order;
use datatype::Word;
use layout::Layout;

// What a line says, and the place behind it. A value's number is its sign and its distance from 0, or from -1 where it is negative.
#[derive(Clone, Copy)]
pub enum Line {
    // The layout of an int or a bits.
    Atomic(Layout, usize),
    // The base's type number.
    Enum(u32, usize),
    // The name's start and end, and the number.
    Value(usize, usize, bool, u64, usize),
    // The size.
    Compound(u32, usize),
    // The name's start and end, the byte offset, the type's number, and the word.
    Member(usize, usize, u32, u32, Word, usize),
    // The base's type number: the dimensions stand beside.
    Array(u32, usize),
    // The size and the order.
    Real(u32, Order, usize),
}

// A line, and the dimensions of an array: 0 for none.
#[derive(Clone, Copy)]
pub struct ReadLine {
    pub line: Line,
    pub dims: [u32; 4],
}

// Where a name lies.
#[derive(Clone, Copy)]
pub struct Name {
    pub start: usize,
    pub end: usize,
}

// A line that has no dimensions.
pub fn plain(line: Option<Line>) -> Option<ReadLine>
    ensures { result ≡ option_map plain_line line }
{
    let line = line?;
    Some(ReadLine { line, dims: [0; 4] })
}
