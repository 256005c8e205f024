// A real, an IEEE 754 binary64 by its 64 bits: from a number, and to one in a layout's range.
#![tactic(auto)]

ghost use Rattle.std.specs.Prelude.{◌≡◌, ◌^◌, ◌<◌};
ghost use Rattle.layout.specs.Layout.{Valid};
ghost use Rattle.number.specs.Parts.{meaning};
ghost use Rattle.reals.specs.Convert.{int_to_real, real_to_int};

pub mod cut;
pub mod nearest;
pub mod whole;

use answer::Given;
use cut::{Cut, without_fraction};
use layout::Layout;
use nearest::{is_double, magnitude_bits};
use number::sign::split_in_range;
use number::{Fitted, NO_EXCEPTION, NOT_A_NUMBER, Number, ROUNDED};
use whole::{end_to_int, magnitude_of, whole_to_int, with_sign};

// The real b brought into l's range: its significant bits, the kind of exception, and b as what was given.
pub fn to_int(b: u64, l: Layout) -> Fitted
    requires { Valid l }
    ensures { (result ≡ real_to_int l b) × (result.raw < 2 ^ l.precision) }
{
    match without_fraction(b) {
        Cut::NotANumber => Fitted {
            raw: 0,
            kind: NOT_A_NUMBER,
            given: Given::Real(b),
        },
        Cut::Beyond(negative) => end_to_int(b, negative, l),
        Cut::Whole(negative, n, fraction) => whole_to_int(b, negative, n, fraction, l),
    }
}

// The number z as a real, and the kind of exception: whether the double is the number is asked of the whole number.
pub fn to_real(z: Number) -> Fitted
    ensures { (result ≡ int_to_real (meaning z)) × (result.raw < 2 ^ 64) }
{
    let p = split_in_range(z);
    let n = magnitude_of(p.negative, p.distance);
    let raw = with_sign(p.negative, magnitude_bits(n));
    Fitted {
        raw,
        kind: if is_double(n) { NO_EXCEPTION } else { ROUNDED },
        given: Given::Whole(p.negative, n),
    }
}
