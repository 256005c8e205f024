// A real cut toward zero to a whole number.
ghost use Rattle.std.specs.Prelude.{◌≡◌};
ghost use Rattle.reals.specs.Worth.{worth};
ghost use Rattle.real_numbers.specs.Left.{cut_of};

use bits::shift::pow2;

// Where the parts of a double lie: the bit of the sign, the bits below the exponent, and how many fractions and exponents there are. The bit
// that is implied above the fraction counts as much as there are fractions.
pub const SIGN: u64 = 0x8000_0000_0000_0000;

const FRACTION_BITS: u64 = 52;

const FRACTIONS: u64 = 0x10_0000_0000_0000;

const EXPONENTS: u64 = 2048;

// The exponent of the infinities and the not-a-numbers.
const TOP_EXPONENT: u64 = 2047;

// The exponents of 1, of 2^52, from which on no double has a fraction, and of 2^63.
const EXPONENT_OF_1: u64 = 1023;

const EXPONENT_OF_2_TO_52: u64 = 1075;

const EXPONENT_OF_2_TO_63: u64 = 1086;

// What is left of a real without its fraction. Beyond: an infinity, or a magnitude of 2^64 or more; negative or not.
// Whole: negative or not, the magnitude, and whether a fraction was dropped.
#[derive(Clone, Copy)]
pub enum Cut {
    NotANumber,
    Beyond(bool),
    Whole(bool, u64, bool),
}

// The 64 bits b cut toward zero: a shift of the significand.
pub fn without_fraction(b: u64) -> Cut
    ensures { result ≡ cut_of (worth b) }
{
    let negative = SIGN <= b;
    let exponent = (b >> FRACTION_BITS) % EXPONENTS;
    let fraction = b % FRACTIONS;
    let significand = FRACTIONS + fraction;
    if exponent == TOP_EXPONENT && fraction != 0 {
        Cut::NotANumber
    } else if EXPONENT_OF_2_TO_63 < exponent {
        Cut::Beyond(negative)
    } else if exponent < EXPONENT_OF_1 {
        Cut::Whole(negative, 0, exponent + fraction != 0)
    } else if exponent <= EXPONENT_OF_2_TO_52 {
        let below = (EXPONENT_OF_2_TO_52 - exponent) as u32;
        Cut::Whole(
            negative,
            significand >> below,
            significand % pow2(below) != 0,
        )
    } else {
        Cut::Whole(
            negative,
            significand << (exponent - EXPONENT_OF_2_TO_52),
            false,
        )
    }
}
