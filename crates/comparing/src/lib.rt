// What the parts of comparing two logs hand on, and what they promise: definitions in specs/, laws in proofs/, no code.
#![tactic(auto)]

use number::Number;

// Two logs behind the checks: so many records, the bytes of a record of the first and of the second, and how many entries the plan has.
#[derive(Clone, Copy)]
pub struct Logs {
    pub count: usize,
    pub first_size: usize,
    pub second_size: usize,
    pub entries: usize,
}

// The numbers of a matched leaf that differ: that of the first log, and that of the second.
#[derive(Clone, Copy)]
pub struct Differing {
    pub first: Number,
    pub second: Number,
}
