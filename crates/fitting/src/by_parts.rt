// A number by its sign and its distance brought into the range of a layout: from -2^64 to 2^64 - 1, so that it need be no `Number`. What was given, as a
// real that this number is cut from, is said apart.
ghost use Rattle.std.specs.Prelude.{◌≡◌, ◌^◌, ◌≤◌, ◌<◌, true, negsuc};
ghost use Rattle.layout.specs.Layout.{Valid};
ghost use Rattle.number.specs.Number.{fitted_to, fitted};
ghost use Rattle.number.specs.Parts.{signed_by};
ghost use Rattle.fitting.specs.Named.{named};

use crate::fit_unsigned;
use answer::Given;
use bits::shift::ones;
use layout::Layout;
use number::{BELOW, Fitted, NO_EXCEPTION, Parts};

// A negative number, by its distance from -1, brought into a signed range.
fn fit_negative(distance: u64, precision: u32, given: Given) -> Fitted
    requires { (1 ≤ precision) × (precision ≤ 64) }
    ensures { result ≡ named given (fitted_to true precision (negsuc distance)) }
{
    let all = ones(precision);
    let farthest = ones(precision - 1);
    if farthest < distance {
        Fitted {
            raw: all - farthest,
            kind: BELOW,
            given,
        }
    } else {
        Fitted {
            raw: all - distance,
            kind: NO_EXCEPTION,
            given,
        }
    }
}

// p brought into l's range: its significant bits, the kind of exception, and what was given. Below an unsigned range lies every negative number.
pub fn fit_parts(p: Parts, l: Layout, given: Given) -> Fitted
    requires { Valid l }
    ensures { (result ≡ named given (fitted l (signed_by p.negative p.distance))) × (result.raw < 2 ^ l.precision) }
{
    if !p.negative {
        Fitted {
            given,
            ..fit_unsigned(p.distance, l.signed, l.precision)
        }
    } else if l.signed {
        fit_negative(p.distance, l.precision, given)
    } else {
        Fitted {
            raw: 0,
            kind: BELOW,
            given,
        }
    }
}
