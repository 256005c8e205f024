// A real, an IEEE 754 binary64 by its 64 bits, against a whole number, by exact worth.
#![tactic(auto)]

ghost use Rattle.std.specs.Prelude.{◌≡◌, true, ◌&&◌, ◌||◌, ◌^◌, ◌<◌, eqb};
ghost use Rattle.std.specs.Bool.{beq};
ghost use Rattle.number.specs.Parts.{meaning, signed_by};
ghost use Rattle.reals.specs.Compare.{equals};

use number::Number;
use number::sign::split_in_range;
use real_numbers::cut::{Cut, without_fraction};
use real_numbers::whole::magnitude_of;

// Whether two whole numbers, by sign and magnitude, are the same: both zeros are 0.
fn same_signed(negative: bool, n: u64, other_negative: bool, other: u64) -> bool
    ensures { result ≡ (eqb n other && (eqb n 0 || beq negative other_negative)) }
{
    if n != other {
        return false;
    }
    if n == 0 {
        return true;
    }
    if negative {
        return other_negative;
    }
    !other_negative
}

// Whether the real b is worth the number of a sign and a distance from 0, or from -1 where it is negative. What is beyond 2^64 is no such number, nor is what has
// a fraction.
fn equals_parts(b: u64, negative: bool, distance: u64) -> bool
    requires { negative ≡ true → distance < 2 ^ 63 }
    ensures { result ≡ equals b (signed_by negative distance) }
{
    let other = magnitude_of(negative, distance);
    let c = without_fraction(b);
    match c {
        Cut::NotANumber => false,
        Cut::Beyond(_) => false,
        Cut::Whole(sign, n, fraction) => {
            if fraction {
                return false;
            }
            same_signed(sign, n, negative, other)
        }
    }
}

// Whether the real b is worth the number z.
pub fn equals_number(b: u64, z: Number) -> bool
    ensures { result ≡ equals b (meaning z) }
{
    let p = split_in_range(z);
    equals_parts(b, p.negative, p.distance)
}
