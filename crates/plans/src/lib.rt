// The plan of a call in words, and what the code that goes by it promises.
#![tactic(auto)]

use answer::Given;

// An entry of the plan is two words: the destination's byte and the source's byte, by this factor, and the source leaf's type number and the destination leaf's.
pub const BYTES: usize = 4096;

pub const TYPES: usize = 64;

// What stands in the words beside a plan: ids of names in the first ones, then so many words for each entry.
pub const NAMES: usize = 512;

pub const ENTRY_WORDS: usize = 4;

// One entry of the plan.
#[derive(Clone, Copy)]
pub struct PlanEntry {
    pub to: usize,
    pub from: usize,
    pub source: usize,
    pub destination: usize,
}

// A row of an enum as significant bits, and the kind of exception.
#[derive(Clone, Copy)]
pub struct Coded {
    pub raw: u64,
    pub kind: u32,
}

// What a leaf raises: its byte of the destination record, the kind of the exception, and the number that was given.
#[derive(Clone, Copy)]
pub struct LeafException {
    pub byte: u32,
    pub kind: u32,
    pub given: Given,
}
