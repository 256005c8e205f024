// One number: its forms, what bringing it into a range gives, and the kinds of exception.
#![tactic(auto)]

pub mod sign;

use answer::Given;

// A number from -2^63 to 2^64 - 1: an i64 where it was read from a signed place.
#[derive(Clone, Copy)]
pub enum Number {
    Signed(i64),
    Unsigned(u64),
}

// A number by its sign and its distance from 0, or from -1 where it is negative.
#[derive(Clone, Copy)]
pub struct Parts {
    pub negative: bool,
    pub distance: u64,
}

// A number brought into a range: its significant bits, the kind of exception, and the number that was given.
#[derive(Clone, Copy)]
pub struct Fitted {
    pub raw: u64,
    pub kind: u32,
    pub given: Given,
}

// The kinds of exception.
pub const NO_EXCEPTION: u32 = 0;

// The number lies above the destination's range, or below it.
pub const ABOVE: u32 = 1;

pub const BELOW: u32 = 2;

// The source has no symbol for the number, or the destination no number for the symbol.
pub const NO_SYMBOL: u32 = 3;

// The real is not a number.
pub const NOT_A_NUMBER: u32 = 4;

// The real's fraction, or the sign of its negative zero, was lost.
pub const TRUNCATED: u32 = 5;

// No double is the number: the nearest one stands for it.
pub const ROUNDED: u32 = 6;
