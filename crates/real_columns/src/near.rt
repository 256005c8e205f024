// A real as an int, by its bits alone where it is less than 2^53: without a branch on data.
ghost use Rattle.std.specs.Prelude.{◌≡◌, ◌+◌, ◌-◌, ◌%◌, ◌^◌, ◌<◌, ◌≤◌, min, cond};
ghost use Rattle.layout.specs.Layout.{Valid};
ghost use Rattle.records.specs.Record.{raises};
ghost use Rattle.reals.specs.Worth.{negative, exponent};
ghost use Rattle.reals.specs.Convert.{real_to_int_of};
ghost use Rattle.column_words.specs.Fit.{half_of, most_of};
ghost use Rattle.real_columns.specs.Near.{significand_of, below_of, whole_near, part_near, limit_of, signed_in, raised_near};

use crate::one_raised;
use bits::shift::pow2;
use bits::{BitAt, ByteAt, Order};
use layout::{Class, Layout, Pad};
use real_numbers::cut::SIGN;
use real_numbers::to_int;
use std::num::wrapping_add_u64;

// Where the parts of a double lie: the bits below the exponent, and how many fractions and exponents there are.
const FRACTION_BITS: u64 = 52;

const FRACTIONS: u64 = 0x10_0000_0000_0000;

const EXPONENTS: u64 = 2048;

// The exponent of 2^52, from which on no double has a fraction, and the one from which on its bits can be shifted out.
const EXPONENT_OF_2_TO_52: u64 = 1075;

const FIRST_SHIFTED: u64 = 1012;

const MOST_SHIFTED: u32 = 63;

// An int's significant bits, and 1 where it raises an exception.
#[derive(Clone, Copy)]
pub struct NearInt {
    pub raw: u64,
    pub raised: u64,
}

fn significand_of(b: u64) -> u64
    ensures { result ≡ significand_of b }
{
    if b == 0 { 0 } else { FRACTIONS + b % FRACTIONS }
}

fn below_of(exponent: u64) -> u32
    requires { exponent ≤ 1075 }
    ensures { (result ≡ below_of exponent) × (result < 64) }
{
    if exponent < FIRST_SHIFTED {
        return MOST_SHIFTED;
    }
    (EXPONENT_OF_2_TO_52 - exponent) as u32
}

fn limit_of(negative: bool, most: u64, least: u64) -> u64
    ensures { result ≡ limit_of negative most least }
{
    if negative { least } else { most }
}

fn lesser(a: u64, b: u64) -> u64
    ensures { (result ≡ min a b) × (result ≤ b) }
{
    if a < b { a } else { b }
}

fn signed_in(negative: bool, into: u64, c: u64) -> u64
    requires { c ≤ into }
    ensures { (result ≡ signed_in negative into c) × (result ≤ into) }
{
    if negative {
        return wrapping_add_u64(into - c, 1) & into;
    }
    c
}

fn raised_near(part: u64, limit: u64, n: u64) -> u64
    ensures { (result ≡ raised_near part limit n) × (result ≤ 1) }
{
    if part == 0 {
        if limit < n {
            return 1;
        }
        return 0;
    }
    1
}

// The real b of less than 2^53 as an int whose magnitude is at most the one of most and least that its sign picks.
fn near(b: u64, most: u64, least: u64, into: u64) -> NearInt
    requires { (exponent b ≤ 1075) × (most ≤ into) × (least ≤ into) }
    ensures { (result.raw ≡ signed_in (negative b) into (min (whole_near b) (limit_of (negative b) most least))) × (result.raised ≡ raised_near (part_near b) (limit_of (negative b) most least) (whole_near b)) × (result.raw ≤ into) × (result.raised ≤ 1) }
{
    let below = below_of((b >> FRACTION_BITS) % EXPONENTS);
    let significand = significand_of(b);
    let n = significand >> below;
    let part = significand % pow2(below);
    let negative = SIGN <= b;
    let limit = limit_of(negative, most, least);
    let raised = raised_near(part, limit, n);
    let raw = signed_in(negative, into, lesser(n, limit));
    NearInt { raw, raised }
}

// How far below 0 the ints of layout m go.
pub fn least_of(signed: bool, precision: u32) -> u64
    requires { (1 ≤ precision) × (precision ≤ 64) }
    ensures { (result ≡ half_of signed precision) × (result < 2 ^ precision) }
{
    if signed { pow2(precision - 1) } else { 0 }
}

// An int of so many bits, the lowest of 8 bytes.
fn int_layout(signed: bool, precision: u32) -> Layout
    requires { (1 ≤ precision) × (precision ≤ 64) }
    ensures { Valid result × (result.signed ≡ signed) × (result.precision ≡ precision) }
{
    Layout {
        class: Class::Int,
        size: ByteAt(8),
        order: Order::LE,
        offset: BitAt(0),
        precision,
        lsb: Pad::Zero,
        msb: Pad::Zero,
        signed,
    }
}

// The real b as an int of so many bits.
pub fn int_near(b: u64, most: u64, least: u64, into: u64, signed: bool, precision: u32) -> NearInt
    requires { (1 ≤ precision) × (precision ≤ 64) × (most ≡ most_of signed precision) × (least ≡ half_of signed precision) × (into ≡ 2 ^ precision - 1) }
    ensures { (result.raw ≡ (real_to_int_of signed precision b).raw) × (result.raised ≡ raises (real_to_int_of signed precision b).kind) × (result.raw ≤ into) × (result.raised ≤ 1) }
{
    if (b >> FRACTION_BITS) % EXPONENTS <= EXPONENT_OF_2_TO_52 {
        return near(b, most, least, into);
    }
    let f = to_int(b, int_layout(signed, precision));
    NearInt {
        raw: f.raw,
        raised: one_raised(f.kind),
    }
}
