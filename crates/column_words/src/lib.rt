// What a column needs to know of its two layouts, worked out from them.
#![tactic(auto)]

ghost use Rattle.std.specs.Prelude.{◌≡◌, ◌+◌, ◌-◌, ◌*◌, ◌^◌, ◌≤◌, ◌<◌, min};
ghost use Rattle.layout.specs.Layout.{Valid};
ghost use Rattle.column_words.specs.Fit.{half_of, most_of, low_end, high_end};
ghost use Rattle.column_words.specs.Fill.{ones_in, kept_in, low_pad, high_pad, ones_of, keep_of};
ghost use Rattle.column_words.specs.Words.{words_of};

use bits::shift::{ones, pow2};
use bits::{Order, bits_of};
use layout::{Layout, Pad};

// The words of two layouts. A number is read from a container of source_size bytes, goes down by shift, has half added under mask, comes between low and high, has half taken
// away under into, goes up, and stands among ones and the bits of the background under keep, in a container of size bytes.
#[derive(Clone, Copy)]
pub struct Words {
    pub source_size: usize,
    pub source_order: Order,
    pub shift: u32,
    pub mask: u64,
    pub half: u64,
    pub low: u64,
    pub high: u64,
    pub into: u64,
    pub up: u32,
    pub ones: u64,
    pub keep: u64,
    pub size: usize,
    pub order: Order,
}

// How far below 0 the numbers of p bits go, and how far above.
fn half_of(signed: bool, p: u32) -> u64
    requires { (1 ≤ p) × (p ≤ 64) }
    ensures { (result ≡ half_of signed p) × (result < 2 ^ p) }
{
    if signed { pow2(p - 1) } else { 0 }
}

fn most_of(signed: bool, p: u32) -> u64
    requires { (1 ≤ p) × (p ≤ 64) }
    ensures { result ≡ most_of signed p }
{
    ones(p) - half_of(signed, p)
}

fn minus(a: u64, b: u64) -> u64
    ensures { result ≡ a - b }
{
    if b < a { a - b } else { 0 }
}

fn least(a: u64, b: u64) -> u64
    ensures { result ≡ min a b }
{
    if a < b { a } else { b }
}

fn low_end(s: bool, p: u32, t: bool, q: u32) -> u64
    requires { (1 ≤ p) × (p ≤ 64) × (1 ≤ q) × (q ≤ 64) }
    ensures { result ≡ low_end s p t q }
{
    minus(half_of(s, p), half_of(t, q))
}

fn high_end(s: bool, p: u32, t: bool, q: u32) -> u64
    requires { (1 ≤ p) × (p ≤ 64) × (1 ≤ q) × (q ≤ 64) }
    ensures { result ≡ high_end s p t q }
{
    half_of(s, p) + least(most_of(s, p), most_of(t, q))
}

// The bits of a pad that are one, and those that stay.
fn ones_in(pad: Pad, bits: u64) -> u64
    ensures { (result ≡ ones_in pad bits) × (result ≤ bits) }
{
    match pad {
        Pad::Zero => 0,
        Pad::One => bits,
        Pad::Keep => 0,
    }
}

fn kept_in(pad: Pad, bits: u64) -> u64
    ensures { (result ≡ kept_in pad bits) × (result ≤ bits) }
{
    match pad {
        Pad::Zero => 0,
        Pad::One => 0,
        Pad::Keep => bits,
    }
}

fn low_pad(l: Layout) -> u64
    requires { Valid l }
    ensures { (result ≡ low_pad l) × (result < 2 ^ l.offset.0) }
{
    ones(l.offset.0)
}

fn high_pad(l: Layout) -> u64
    requires { Valid l }
    ensures { (result ≡ high_pad l) × (result + 2 ^ l.offset.0 ≤ 2 ^ 64) }
{
    let all = bits_of(l.size);
    ones(all.0) - ones(l.offset.0 + l.precision)
}

fn ones_of(l: Layout) -> u64
    requires { Valid l }
    ensures { result ≡ ones_of l }
{
    let msb = l.msb;
    let lsb = l.lsb;
    ones_in(msb, high_pad(l)) + ones_in(lsb, low_pad(l))
}

fn keep_of(l: Layout) -> u64
    requires { Valid l }
    ensures { result ≡ keep_of l }
{
    let msb = l.msb;
    let lsb = l.lsb;
    kept_in(msb, high_pad(l)) + kept_in(lsb, low_pad(l))
}

// The words between l and m.
pub fn words_of(l: Layout, m: Layout) -> Words
    requires { Valid l × Valid m }
    ensures { result ≡ words_of l m }
{
    let from = l.order;
    let to = m.order;
    Words {
        source_size: l.size.0,
        source_order: from,
        shift: l.offset.0,
        mask: ones(l.precision),
        half: half_of(l.signed, l.precision),
        low: low_end(l.signed, l.precision, m.signed, m.precision),
        high: high_end(l.signed, l.precision, m.signed, m.precision),
        into: ones(m.precision),
        up: m.offset.0,
        ones: ones_of(m),
        keep: keep_of(m),
        size: m.size.0,
        order: to,
    }
}
