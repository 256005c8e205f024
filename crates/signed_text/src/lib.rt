// Signed numbers in decimal: their length, and their bytes at a place.
#![tactic(auto)]

ghost use Rattle.std.specs.Prelude.{◌≡◌, ◌+◌, ◌≤◌, ◌^◌, length, nat_abs};
ghost use Rattle.text.specs.Field.{signed_of};
ghost use Rattle.text.specs.Written.{Wrote};

use text_writing::{decimal_len, put_bytes, put_decimal};

// The distance from 0.
pub fn magnitude(z: i64) -> u64
    ensures { (result ≡ nat_abs z) × (result ≤ 2 ^ 63) }
{
    if z < 0 {
        return !z as u64 + 1;
    }
    z as u64
}

// How many bytes z has: its digits, and a minus where it is negative.
pub fn signed_len(z: i64) -> usize
    ensures { (result ≡ length (signed_of z)) × (result ≤ 20) }
{
    let digits = decimal_len(magnitude(z));
    if z < 0 {
        return digits + 1;
    }
    digits
}

// Writes z in decimal, and answers the next place.
pub fn put_signed(out: &mut [u8], at: usize, z: i64) -> usize
    requires { at + length (signed_of z) ≤ length out.old }
    ensures { Wrote out.old at (signed_of z) out.new result }
{
    let n = magnitude(z);
    if z < 0 {
        let next = put_bytes(out, at, b"-");
        return put_decimal(out, next, n);
    }
    put_decimal(out, at, n)
}
