// A number brought into the range of a layout.
#![tactic(auto)]

ghost use Rattle.std.specs.Prelude.{◌≡◌, ◌^◌, ◌≤◌, ◌<◌, true, false, pos};
ghost use Rattle.layout.specs.Layout.{Valid};
ghost use Rattle.number.specs.Number.{valued, largest, smallest, bits_of, number_given, fitted_to, fitted};
ghost use Rattle.number.specs.Parts.{meaning};
ghost use Rattle.fitting.specs.Signed.{InSigned};

pub mod by_parts;

use answer::Given;
use bits::shift::ones;
use layout::Layout;
use number::sign::{above, below, given_signed, number_of};
use number::{ABOVE, BELOW, Fitted, NO_EXCEPTION, Number};

// The ends of the signed range of these many bits. At 64 they are i64's own.
fn largest_signed(precision: u32) -> i64
    requires { (1 ≤ precision) × (precision ≤ 64) }
    ensures { result ≡ largest true precision }
{
    above(ones(precision - 1))
}

fn smallest_signed(precision: u32) -> i64
    requires { (1 ≤ precision) × (precision ≤ 64) }
    ensures { result ≡ smallest true precision }
{
    below(ones(precision - 1))
}

// The significant bits of a signed number that lies in the signed range of these many bits.
fn signed_bits(z: i64, precision: u32) -> u64
    requires { (1 ≤ precision) × (precision ≤ 64) × InSigned precision z }
    ensures { result ≡ bits_of precision z }
{
    if z < 0 {
        ones(precision) - (!z as u64)
    } else {
        z as u64
    }
}

// What is answered of a signed number or of an end of its range, whichever lies in the signed range of these many bits.
fn signed_fitted(z: i64, precision: u32, kind: u32, given: Given) -> Fitted
    requires { (1 ≤ precision) × (precision ≤ 64) × InSigned precision z }
    ensures { result ≡ record { raw = bits_of precision z; kind = kind; given = given } }
{
    let raw = signed_bits(z, precision);
    Fitted { raw, kind, given }
}

// A signed number brought into a signed range.
fn fit_signed(z: i64, precision: u32) -> Fitted
    requires { (1 ≤ precision) × (precision ≤ 64) }
    ensures { result ≡ fitted_to true precision z }
{
    let largest = largest_signed(precision);
    let smallest = smallest_signed(precision);
    let given = given_signed(z);
    if largest < z {
        signed_fitted(largest, precision, ABOVE, given)
    } else if z < smallest {
        signed_fitted(smallest, precision, BELOW, given)
    } else {
        signed_fitted(z, precision, NO_EXCEPTION, given)
    }
}

// The largest number of either range: a u64, since neither range ends below 0.
fn largest_of(signed: bool, precision: u32) -> u64
    requires { (1 ≤ precision) × (precision ≤ 64) }
    ensures { pos result ≡ largest signed precision }
{
    if signed {
        ones(precision - 1)
    } else {
        ones(precision)
    }
}

// A number that is not negative brought into either range.
fn fit_unsigned(n: u64, signed: bool, precision: u32) -> Fitted
    requires { (1 ≤ precision) × (precision ≤ 64) }
    ensures { result ≡ fitted_to signed precision (pos n) }
{
    let largest = largest_of(signed, precision);
    let given = Given::Whole(false, n);
    if largest < n {
        Fitted {
            raw: largest,
            kind: ABOVE,
            given,
        }
    } else {
        Fitted {
            raw: n,
            kind: NO_EXCEPTION,
            given,
        }
    }
}

// A signed number brought into an unsigned range.
fn fit_into_unsigned(z: i64, precision: u32) -> Fitted
    requires { (1 ≤ precision) × (precision ≤ 64) }
    ensures { result ≡ fitted_to false precision z }
{
    if z < 0 {
        Fitted {
            raw: 0,
            kind: BELOW,
            given: given_signed(z),
        }
    } else {
        fit_unsigned(z as u64, false, precision)
    }
}

// z brought into l's range: its significant bits, and the kind of exception.
pub fn fit(z: Number, l: Layout) -> Fitted
    requires { Valid l }
    ensures { (result ≡ fitted l (meaning z)) × (result.raw < 2 ^ l.precision) }
{
    match z {
        Number::Signed(z) if l.signed => fit_signed(z, l.precision),
        Number::Signed(z) => fit_into_unsigned(z, l.precision),
        Number::Unsigned(n) => fit_unsigned(n, l.signed, l.precision),
    }
}

// The bits of a signed number of p bits in q bits, where all numbers of p bits have theirs: the sign is carried up by a product, so
// that no branch hangs on it.
fn widened(raw: u64, p: u32, q: u32) -> u64
    requires { (1 ≤ p) × (p ≤ q) × (q ≤ 64) × (raw < 2 ^ p) }
    ensures { (record { raw = result; kind = 0; given = number_given (valued true p raw) } ≡ fitted_to true q (valued true p raw)) × (result < 2 ^ q) }
{
    raw + (ones(q) - ones(p)) * (raw >> (p - 1))
}

// What was given, where it is the number of p bits in two's complement: products pick the magnitude, so that no branch hangs on the sign.
fn given_raw(raw: u64, p: u32) -> Given
    requires { (1 ≤ p) × (p ≤ 64) × (raw < 2 ^ p) }
    ensures { result ≡ number_given (valued true p raw) }
{
    let top = raw >> (p - 1);
    let below = ones(p) - raw;
    Given::Whole(top == 1, raw * (1 - top) + (below + top) * top)
}

// The significant bits raw of l brought into m's range, by a short way where every number of l is one of m's.
pub fn fit_raw(l: Layout, m: Layout, raw: u64) -> Fitted
    requires { Valid l × Valid m × (raw < 2 ^ l.precision) }
    ensures { (result ≡ fitted m (valued l.signed l.precision raw)) × (result.raw < 2 ^ m.precision) }
{
    let p = l.precision;
    let q = m.precision;
    if l.signed {
        if m.signed && p <= q {
            return Fitted {
                raw: widened(raw, p, q),
                kind: NO_EXCEPTION,
                given: given_raw(raw, p),
            };
        }
        return fit(number_of(true, p, raw), m);
    }
    let inside = if m.signed { p < q } else { p <= q };
    if inside {
        return Fitted {
            raw,
            kind: NO_EXCEPTION,
            given: Given::Whole(false, raw),
        };
    }
    fit_unsigned(raw, m.signed, q)
}
