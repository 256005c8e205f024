// What the code that reads a sheet hands on and promises, step by step: definitions in specs/, laws in proofs/, no code.
#![tactic(auto)]

// "At most 64 types, 256 value and member lines together, 16,384 bytes"; a compound and an array have at most 4,096 bytes.
pub const MOST_TYPES: u32 = 64;

pub const MOST_ROWS: u32 = 256;

pub const MOST_BYTES: u32 = 4096;

pub const MOST_TEXT: usize = 16384;

// How many types and rows of a sheet stand in the table.
#[derive(Clone, Copy)]
pub struct Counts {
    pub types: u32,
    pub rows: u32,
}

// The number of a sheet's first faulty line; 0 for a sheet that is too long.
#[derive(Clone, Copy)]
pub struct FaultyLine(pub u32);
