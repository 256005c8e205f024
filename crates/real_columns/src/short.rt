// A number of at most 53 bits as a real, by its bits alone: each is a double, so nothing is raised.
ghost use Rattle.std.specs.Prelude.{◌≡◌, ◌-◌, ◌^◌, ◌<◌, ◌≤◌};
ghost use Rattle.real_columns.specs.Short.{first_below, magnitude_in, short_real};

use bits::shift::pow2;
use real_numbers::nearest::magnitude_bits;
use real_numbers::whole::with_sign;

// The most bits of numbers that are all doubles.
pub const MOST_BITS: u32 = 53;

// The bits from which on a number is negative: where there is no sign, more than there are.
pub fn first_below(signed: bool, precision: u32) -> u64
    requires { (1 ≤ precision) × (precision ≤ 53) }
    ensures { result ≡ first_below signed precision }
{
    if signed {
        pow2(precision - 1)
    } else {
        pow2(precision)
    }
}

fn magnitude_in(negative: bool, all: u64, raw: u64) -> u64
    requires { raw ≤ all }
    ensures { result ≡ magnitude_in negative all raw }
{
    if negative { all - raw } else { raw }
}

// The bits raw, out of all that there are, as a real's.
pub fn short_real(first: u64, all: u64, raw: u64) -> u64
    requires { raw ≤ all }
    ensures { (result ≡ short_real first all raw) × (result < 2 ^ 64) }
{
    let negative = first <= raw;
    with_sign(negative, magnitude_bits(magnitude_in(negative, all, raw)))
}
