// The working table's records of types and rows: read, looked up, made and stored.
// The table's words, and those of the half that holds one sheet.
#![tactic(auto)]

pub const TABLE: usize = 8192;

pub const HALF: usize = 4096;

// A half has this many records of types, of so many words each; from word ROWS_AT on this many of rows.
pub const MOST_TYPES: usize = 64;

pub const TYPE_WORDS: usize = 16;

pub const ROWS_AT: usize = 1024;

pub const MOST_ROWS: usize = 256;

pub const ROW_WORDS: usize = 8;

// The words of a type's record: the class and the layout, an array's base, where its rows begin and how many they are.
pub const CLASS: usize = 0;

pub const SIZE: usize = 1;

pub const ORDER: usize = 2;

pub const OFFSET: usize = 3;

pub const PRECISION: usize = 4;

pub const LSB: usize = 5;

pub const MSB: usize = 6;

pub const SIGN: usize = 7;

pub const BASE: usize = 8;

pub const FIRST: usize = 9;

pub const ROWS: usize = 10;

// The first of an array's dimensions, of which there are at most so many.
pub const DIMENSIONS: usize = 11;

pub const RANKS: usize = 4;

// Classes.
pub const INT: usize = 0;

pub const BITS: usize = 1;

pub const ENUM: usize = 2;

pub const COMPOUND: usize = 3;

pub const ARRAY: usize = 4;

pub const REAL: usize = 5;

pub const CLASSES: usize = 6;

// The words of a row's record: where the name starts in the text and its length; of a member its byte offset, its type's number and its word; of a value its sign and
// the two halves of its distance from 0, or from -1 where it is negative.
pub const NAME: usize = 0;

pub const NAME_LENGTH: usize = 1;

pub const MEMBER_OFFSET: usize = 2;

pub const MEMBER_TYPE: usize = 3;

pub const MEMBER_WORD: usize = 5;

pub const VALUE_SIGN: usize = 2;

pub const VALUE_LOW: usize = 3;

pub const VALUE_HIGH: usize = 4;

// What one of the high half is worth.
pub const HIGH: usize = 4294967296;

pub mod codes;
pub mod read;
pub mod store;
