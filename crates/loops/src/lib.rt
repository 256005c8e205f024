// n records, one after the other: copied, replaced in place, or searched for the first exception.
#![tactic(auto)]

pub mod bytes;

use answer::Given;

// An exception among records: the record, the byte of the destination record, the kind, and the number that was given.
#[derive(Clone, Copy)]
pub struct Exception {
    pub record: u32,
    pub byte: u32,
    pub kind: u32,
    pub given: Given,
}
