// Leaves, paths and matches of the types in half a working table, and the plan of the matched leaves.
// What bounds the work, in a table that the reader of sheets made: a walk goes down at most 64 levels, and looks at no more than 256 rows of each table
// at a level, at a few likely ones first, and once more at those of the destination where it ends between members. A plan takes one walk for each matched leaf
// and one for each part without a match: the rest of a member whose name the source lacks, of a gap between members, or of a type that does not fit. Each of
// these has a byte of its own, so they are at most 4,096. The members of a type do not overlap, so the question for a path meets at most 4,096 pairs of types
// at a level.
#![tactic(auto)]

pub mod dimensions;
pub mod leaf;
pub mod numbers;
pub mod types;

// One step down from a type at a byte: to an inner type at a byte of it; here, where the type is a leaf that starts at the byte; or no leaf starts there.
#[derive(Clone, Copy)]
pub enum Step {
    Go(usize, usize),
    Here,
    Gone,
}

// One step down from a source type and a destination type: on to inner types, so many bytes further in the source and at a byte of the destination's;
// both are leaves; or no leaf is matched from here up to this byte of the destination type.
#[derive(Clone, Copy)]
pub enum Walk {
    On(usize, usize, usize, usize),
    Same,
    Off(usize),
}

// The match of a destination leaf: the source leaf's byte, the source leaf's type number and the destination leaf's; or how many bytes from here on have
// no match.
// An enum, and no Result, which is no plainer: both sides carry what a caller goes on with, and neither is a fault.
#[derive(Clone, Copy)]
pub enum Pair {
    Matched(usize, usize, usize),
    Unmatched(usize),
}

// One step of the question whether there is a path: its answer, or the two types or the two lists of members that it depends on.
#[derive(Clone, Copy)]
pub enum Turn {
    Answer(bool),
    Bases(usize, usize),
    Lists,
}

// The types of the source member and of the destination member of one name.
#[derive(Clone, Copy)]
pub struct Inner {
    pub source: usize,
    pub destination: usize,
}
