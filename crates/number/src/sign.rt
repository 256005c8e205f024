// A number by its sign: from its bits, and apart into sign and distance.
ghost use Rattle.std.specs.Prelude.{◌≡◌, ◌^◌, ◌≤◌, ◌<◌, true, pos, negsuc};
ghost use Rattle.number.specs.Number.{valued, number_given};
ghost use Rattle.number.specs.Parts.{meaning, signed_by};

use crate::{Number, Parts};
use answer::Given;
use bits::shift::{ones, pow2};

// The i64 that is not negative, and the one that is.
pub fn above(n: u64) -> i64
    requires { n < 2 ^ 63 }
    ensures { result ≡ pos n }
{
    n as i64
}

pub fn below(n: u64) -> i64
    requires { n < 2 ^ 63 }
    ensures { result ≡ negsuc n }
{
    !(n as i64)
}

fn parts_of(z: i64) -> Parts
    ensures { z ≡ signed_by result.negative result.distance }
{
    if z < 0 {
        Parts {
            negative: true,
            distance: !z as u64,
        }
    } else {
        Parts {
            negative: false,
            distance: z as u64,
        }
    }
}

// A number apart: a negative one is at least -2^63.
pub fn split_in_range(z: Number) -> Parts
    ensures { (meaning z ≡ signed_by result.negative result.distance) × (result.negative ≡ true → result.distance < 2 ^ 63) }
{
    match z {
        Number::Signed(z) => parts_of(z),
        Number::Unsigned(n) => Parts {
            negative: false,
            distance: n,
        },
    }
}

pub fn split(z: Number) -> Parts
    ensures { meaning z ≡ signed_by result.negative result.distance }
{
    split_in_range(z)
}

pub fn number_of(signed: bool, precision: u32, raw: u64) -> Number
    requires { (1 ≤ precision) × (precision ≤ 64) × (raw < 2 ^ precision) }
    ensures { meaning result ≡ valued signed precision raw }
{
    if signed {
        if raw < pow2(precision - 1) {
            Number::Signed(above(raw))
        } else {
            Number::Signed(below(ones(precision) - raw))
        }
    } else {
        Number::Unsigned(raw)
    }
}

// What was given, where it is a whole number: its sign and magnitude.
pub fn given_signed(z: i64) -> Given
    ensures { result ≡ number_given z }
{
    Given::Whole(z < 0, z.unsigned_abs())
}

pub fn given_number(z: Number) -> Given
    ensures { result ≡ number_given (meaning z) }
{
    match z {
        Number::Signed(z) => given_signed(z),
        Number::Unsigned(n) => Given::Whole(false, n),
    }
}
