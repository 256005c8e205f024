// What the parts of a converting call hand on, and what they promise: definitions in specs/, laws in proofs/, no code.
#![tactic(auto)]

// A conversion that no check refuses: in place or copying, with a handling, of so many records, from a type of the source sheet to one of the destination sheet.
#[derive(Clone, Copy)]
pub struct Conversion {
    pub in_place: bool,
    pub handling: u32,
    pub count: usize,
    pub source: usize,
    pub destination: usize,
}
