// The double nearest to a whole number.
ghost use Rattle.std.specs.Prelude.{◌≡◌, ◌-◌, ◌%◌, ◌^◌, ◌<◌, eqb};
ghost use Rattle.reals.specs.Nearest.{highest, magnitude_bits};

use bits::shift::pow2;

// The bits of a half of a number, and what one of the high half counts: 2^32, as a number and as a double.
const HALF_BITS: u64 = 32;

const HIGH: u64 = 4294967296;

const HIGH_DOUBLE: f64 = 4294967296.0;

// The zeros above a number of 53 bits, as many as a significand has. A longer number has fewer.
const ZEROS_ABOVE: u32 = 11;

// The bits of the double nearest to n: each half of n is a double exactly, and so is the high half times 2^32, so only the sum rounds.
pub fn magnitude_bits(n: u64) -> u64
    ensures { (result ≡ magnitude_bits n) × (result < 2 ^ 63) }
{
    let high = (n >> HALF_BITS) as f64;
    let low = (n % HIGH) as f64;
    (high * HIGH_DOUBLE + low).to_bits()
}

// How many of the lowest bits of a number as long as n no double has.
fn spare_bits(n: u64) -> u32
    ensures { (result ≡ highest 63 n - 52) × (result < 12) }
{
    ZEROS_ABOVE.saturating_sub(n.leading_zeros())
}

// Whether the double nearest to n is n: whether those bits are zero.
pub fn is_double(n: u64) -> bool
    ensures { result ≡ eqb (n % 2 ^ (highest 63 n - 52)) 0 }
{
    n % pow2(spare_bits(n)) == 0
}
