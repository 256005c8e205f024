// A whole number by its sign and its magnitude: out of a real into an int's range, and into a real.
ghost use Rattle.std.specs.Prelude.{◌≡◌, true, cond, ◌&&◌, ◌||◌, ◌+◌, ◌^◌, ◌≤◌, ◌<◌, eqb};
ghost use Rattle.answer.specs.declared.Given.{Given};
ghost use Rattle.answer.specs.declared.Given.TheVariants.{Real};
ghost use Rattle.layout.specs.Layout.{Valid};
ghost use Rattle.number.specs.Number.{fitted};
ghost use Rattle.number.specs.Parts.{signed_by};
ghost use Rattle.reals.specs.Worth.Worth.{infinite};
ghost use Rattle.reals.specs.Compare.{magnitude};
ghost use Rattle.reals.specs.Convert.{with_sign, noting, worth_to_int};

use crate::cut::SIGN;
use answer::Given;
use bits::shift::ones;
use fitting::by_parts::fit_parts;
use layout::Layout;
use number::{ABOVE, BELOW, Fitted, NO_EXCEPTION, Parts, TRUNCATED};

// The number of a sign and a magnitude: both zeros are 0.
fn signed_number(negative: bool, n: u64) -> Parts
    ensures { signed_by result.negative result.distance ≡ with_sign negative n }
{
    if negative && n != 0 {
        Parts {
            negative,
            distance: n - 1,
        }
    } else {
        Parts {
            negative: false,
            distance: n,
        }
    }
}

// How far a number, given by its parts, is from 0.
pub fn magnitude_of(negative: bool, distance: u64) -> u64
    requires { negative ≡ true → distance < 2 ^ 63 }
    ensures { (result ≡ magnitude (signed_by negative distance)) × (result < 2 ^ 64) }
{
    if negative { distance + 1 } else { distance }
}

// The bits of a magnitude with a sign above them.
pub fn with_sign(negative: bool, bits: u64) -> u64
    requires { bits < 2 ^ 63 }
    ensures { result ≡ cond negative (2 ^ 63) 0 + bits }
{
    if negative { SIGN + bits } else { bits }
}

// Whether a fraction or the sign of a negative zero is lost.
fn loses(negative: bool, n: u64, fraction: bool) -> bool
    ensures { result ≡ (fraction || (negative && eqb n 0)) }
{
    fraction || (negative && n == 0)
}

// f with that loss noted, where nothing else was raised.
fn noted(f: Fitted, lost: bool) -> Fitted
    ensures { result ≡ noting f.given lost f }
{
    if f.kind == NO_EXCEPTION && lost {
        Fitted {
            kind: TRUNCATED,
            ..f
        }
    } else {
        f
    }
}

// The whole number of a sign and a magnitude, to which the real b was cut, with a fraction or not, brought into l's range.
pub fn whole_to_int(b: u64, negative: bool, n: u64, fraction: bool, l: Layout) -> Fitted
    requires { Valid l }
    ensures { (result ≡ noting (Real b) (fraction || (negative && eqb n 0)) (fitted l (with_sign negative n))) × (result.raw < 2 ^ l.precision) }
{
    let f = fit_parts(signed_number(negative, n), l, Given::Real(b));
    noted(f, loses(negative, n, fraction))
}

// The significant bits of the end of a range that lies toward an infinity.
fn range_end(negative: bool, signed: bool, precision: u32) -> u64
    requires { (1 ≤ precision) × (precision ≤ 64) }
    ensures { ((g : Given) → result ≡ (worth_to_int g signed precision (infinite negative)).raw) × (result < 2 ^ precision) }
{
    match (signed, negative) {
        (true, true) => ones(precision) - ones(precision - 1),
        (true, false) => ones(precision - 1),
        (false, true) => 0,
        (false, false) => ones(precision),
    }
}

// The real b, an infinity or beyond every range, brought into l's range.
pub fn end_to_int(b: u64, negative: bool, l: Layout) -> Fitted
    requires { Valid l }
    ensures { (result ≡ worth_to_int (Real b) l.signed l.precision (infinite negative)) × (result.raw < 2 ^ l.precision) }
{
    Fitted {
        raw: range_end(negative, l.signed, l.precision),
        kind: if negative { BELOW } else { ABOVE },
        given: Given::Real(b),
    }
}
