// Numbers of at most 31 bits that can only be too large, side by side: each comes to the upper end of the range where it lies above it.
#![tactic(auto)]

ghost use Rattle.std.specs.Prelude.{◌≡◌, ℕ, ◌<◌, ◌≤◌, true, length, slice_index};
ghost use Rattle.column_words.specs.Words.{make_by, count_by, Fits};
ghost use Rattle.column_words.specs.Fit.{clamped};
ghost use Rattle.blocks.specs.Blocks.{sum_to};

use column_steps::{bias_32, place_32};
use column_words::Words;
use std::num::wrapping_sub_u32;

// 1 where b lies above high: their difference wraps then, and its top bit is one. The processor has no unsigned comparison of vectors.
fn over_31(b: u32, high: u32) -> u32
    requires { (b < 2147483648) × (high < 2147483648) }
    ensures { (result ≡ 1 → high < b) × (result ≡ 0 → b ≤ high) × (result ≤ 1) }
{
    wrapping_sub_u32(high, b) >> 31
}

// b, or high where it lies above.
fn cap_31(b: u32, high: u32) -> u32
    requires { (b < 2147483648) × (high < 2147483648) }
    ensures { result ≡ clamped 0 high b }
{
    if over_31(b, high) == 1 { high } else { b }
}

// How many lie above is returned.
fn cap_each_31(t: &mut [u32], count: usize, w: Words) -> u64
    requires { (count ≤ length t.old) × Fits 32 w × (count ≤ 65536) × (w.low ≡ 0) × (w.mask < 2147483648) × (w.high < 2147483648) }
    ensures { ((i : ℕ) → i < count → slice_index t.new i ≡ make_by w (slice_index t.old i)) × (result ≡ sum_to (λ i. count_by w (slice_index t.old i)) count) × (result ≤ count) }
{
    let half = w.half as u32;
    let mask = w.mask as u32;
    let into = w.into as u32;
    let ones = w.ones as u32;
    let shift = w.shift;
    let up = w.up;
    let high = w.high as u32;
    let mut raised: u32 = 0;
    for i in 0..count {
        let b = bias_32(t[i], shift, half, mask);
        raised += over_31(b, high);
        t[i] = place_32(cap_31(b, high), half, into, up, ones);
    }
    raised as u64
}

// Of numbers without a sign that stand at the lowest bit, without pads that are one: words that are constants take no time.
fn cap_plain_31(t: &mut [u32], count: usize, w: Words) -> u64
    requires { (count ≤ length t.old) × Fits 32 w × (count ≤ 65536) × (w.low ≡ 0) × (w.mask < 2147483648) × (w.high < 2147483648) × (w.shift ≡ 0) × (w.half ≡ 0) × (w.up ≡ 0) × (w.ones ≡ 0) }
    ensures { ((i : ℕ) → i < count → slice_index t.new i ≡ make_by w (slice_index t.old i)) × (result ≡ sum_to (λ i. count_by w (slice_index t.old i)) count) × (result ≤ count) }
{
    let from = w.source_order;
    let to = w.order;
    let v = Words {
        source_size: w.source_size,
        source_order: from,
        shift: 0,
        mask: w.mask,
        half: 0,
        low: w.low,
        high: w.high,
        into: w.into,
        up: 0,
        ones: 0,
        keep: w.keep,
        size: w.size,
        order: to,
    };
    cap_each_31(t, count, v)
}

pub fn is_of_31(w: Words) -> bool
    ensures { result ≡ true → (w.mask < 2147483648) × (w.high < 2147483648) }
{
    if w.mask < 2147483648 {
        return w.high < 2147483648;
    }
    false
}

fn is_plain(w: Words) -> bool
    ensures { result ≡ true → (w.shift ≡ 0) × (w.half ≡ 0) × (w.up ≡ 0) × (w.ones ≡ 0) }
{
    if w.shift == 0 {
        if w.half == 0 {
            if w.up == 0 {
                return w.ones == 0;
            }
        }
    }
    false
}

// Each of so many containers of the source as one of the destination; how many raise an exception is returned.
pub fn cap_each(t: &mut [u32], count: usize, w: Words) -> u64
    requires { (count ≤ length t.old) × Fits 32 w × (count ≤ 65536) × (w.low ≡ 0) × (w.mask < 2147483648) × (w.high < 2147483648) }
    ensures { ((i : ℕ) → i < count → slice_index t.new i ≡ make_by w (slice_index t.old i)) × (result ≡ sum_to (λ i. count_by w (slice_index t.old i)) count) × (result ≤ count) }
{
    if is_plain(w) {
        return cap_plain_31(t, count, w);
    }
    cap_each_31(t, count, w)
}
