// Bytes as one number, in either byte order: units of place, shifts, masks, reads and writes.
#![tactic(auto)]

ghost use Rattle.std.specs.Prelude.{◌≡◌, ◌*◌, ◌<◌};
ghost use Rattle.bits.specs.Index.{index_of};

pub mod shift;

// Which end of a container its lowest byte is at: the lowest address (LE) or the highest (BE).
#[derive(Clone, Copy)]
pub enum Order {
    LE,
    BE,
}

// A place or a length in bytes, and one in bits. They are different types, so that no sum mixes them.
#[derive(Clone, Copy)]
pub struct ByteAt(pub usize);

#[derive(Clone, Copy)]
pub struct BitAt(pub u32);

// The one place where bytes become bits.
pub fn bits_of(b: ByteAt) -> BitAt
    requires { 8 * b.0 < 4294967296 }
    ensures { result.0 ≡ 8 * b.0 }
{
    BitAt(8 * (b.0 as u32))
}

// Where the byte of significance k lies among n bytes.
pub fn index_of(order: Order, n: usize, k: usize) -> usize
    requires { k < n }
    ensures { (result ≡ index_of order n k) × (result < n) }
{
    match order {
        Order::LE => k,
        Order::BE => n - 1 - k,
    }
}
