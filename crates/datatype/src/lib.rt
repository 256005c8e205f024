// Datatypes as trees, their leaves, paths and matches: definitions in specs/, laws in proofs/, and no function.
#![tactic(auto)]

// The word that a member's line may end in: what the leaves inside the member obey where no member further inside has one. A member without a word is silent.
#[derive(Clone, Copy)]
pub enum Word {
    Silent,
    Clamp,
    Stop,
}

// Handling 0: the nearest number that fits is written, and counted.
pub const CLAMP: u32 = 0;
// Handling 1: a number that does not fit refuses the call. No other handling is larger.
pub const STOP: u32 = 1;
