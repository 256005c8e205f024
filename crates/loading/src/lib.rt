// Reads a container: the number that some bytes hold, and a field of its bits.
#![tactic(auto)]

ghost use Rattle.std.specs.Prelude.{◌≡◌, ◌+◌, ◌*◌, ◌^◌, ◌≤◌, ◌<◌, length, take, drop, get_or};
ghost use Rattle.bits.specs.Container.{container, field};

use bits::shift::low_bits;
use bits::{BitAt, ByteAt, Order, bits_of, index_of};

// What a window reads at once, whatever the size of the place.
pub const WINDOW: ByteAt = ByteAt(8);

// The number that size bytes of s from index at hold, for any size.
fn load_any(s: &[u8], at: usize, size: usize, order: Order) -> u64
    requires { (size ≤ 8) × (at + size ≤ length s.now) }
    ensures { (result ≡ container order (take size (drop at s.now))) × (result < 2 ^ (8 * size)) }
{
    let mut c: u64 = 0;
    for k in (0..size).rev() {
        let i = at + index_of(order, size, k);
        c = c * 256 + s[i] as u64;
    }
    c
}

fn wide(x: u8) -> u64
    ensures { (result ≡ x) × (result < 256) }
{
    x as u64
}

// The byte of s at index i, at the place whose value is place.
fn digit(s: &[u8], i: usize, place: u64) -> u64
    requires { (i < length s.now) × (255 * place < 2 ^ 64) }
    ensures { (result ≡ get_or s.now i 0 * place) × (result ≤ 255 * place) }
{
    wide(s[i]) * place
}

// Straight-line reads: the sum of two or four bytes of s from index at on, each at its place. The compiler turns at most four
// digits in a sum into one load, where the places are constants. One function for each order and size stays: a loop over a
// constant number of bytes in their place was tried, and in a loop over records it is slower, since those loads are lost.
fn two(s: &[u8], at: usize, a: u64, b: u64) -> u64
    requires { (at + 2 ≤ length s.now) × (255 * (a + b) < 2 ^ 64) }
    ensures { (result ≡ get_or s.now at 0 * a + get_or s.now (at + 1) 0 * b) × (result ≤ 255 * (a + b)) }
{
    digit(s, at, a) + digit(s, at + 1, b)
}

fn four(s: &[u8], at: usize, a: u64, b: u64, c: u64, d: u64) -> u64
    requires { (at + 4 ≤ length s.now) × (255 * (a + b + c + d) < 2 ^ 64) }
    ensures { (result ≡ get_or s.now at 0 * a + get_or s.now (at + 1) 0 * b + get_or s.now (at + 2) 0 * c + get_or s.now (at + 3) 0 * d) × (result ≤ 255 * (a + b + c + d)) }
{
    digit(s, at, a) + digit(s, at + 1, b) + digit(s, at + 2, c) + digit(s, at + 3, d)
}

fn le2(s: &[u8], at: usize) -> u64
    requires { at + 2 ≤ length s.now }
    ensures { (result ≡ container Order.LE (take 2 (drop at s.now))) × (result < 65536) }
{
    two(s, at, 1, 256)
}

fn be2(s: &[u8], at: usize) -> u64
    requires { at + 2 ≤ length s.now }
    ensures { (result ≡ container Order.BE (take 2 (drop at s.now))) × (result < 65536) }
{
    two(s, at, 256, 1)
}

fn le4(s: &[u8], at: usize) -> u64
    requires { at + 4 ≤ length s.now }
    ensures { (result ≡ container Order.LE (take 4 (drop at s.now))) × (result < 4294967296) }
{
    four(s, at, 1, 256, 65536, 16777216)
}

fn be4(s: &[u8], at: usize) -> u64
    requires { at + 4 ≤ length s.now }
    ensures { (result ≡ container Order.BE (take 4 (drop at s.now))) × (result < 4294967296) }
{
    four(s, at, 16777216, 65536, 256, 1)
}

// The four bytes of be4 in the high half.
fn be4_high(s: &[u8], at: usize) -> u64
    requires { at + 4 ≤ length s.now }
    ensures { (result ≡ container Order.BE (take 4 (drop at s.now)) * 4294967296) × (result ≤ 18446744069414584320) }
{
    four(
        s,
        at,
        72057594037927936,
        281474976710656,
        1099511627776,
        4294967296,
    )
}

fn le8(s: &[u8], at: usize) -> u64
    requires { at + 8 ≤ length s.now }
    ensures { (result ≡ container Order.LE (take 8 (drop at s.now))) × (result < 18446744073709551616) }
{
    le4(s, at) + le4(s, at + 4) * 4294967296
}

fn be8(s: &[u8], at: usize) -> u64
    requires { at + 8 ≤ length s.now }
    ensures { (result ≡ container Order.BE (take 8 (drop at s.now))) × (result < 18446744073709551616) }
{
    be4_high(s, at) + be4(s, at + 4)
}

fn load_le(s: &[u8], at: usize, size: usize) -> u64
    requires { (size ≤ 8) × (at + size ≤ length s.now) }
    ensures { (result ≡ container Order.LE (take size (drop at s.now))) × (result < 2 ^ (8 * size)) }
{
    match size {
        2 => le2(s, at),
        4 => le4(s, at),
        8 => le8(s, at),
        _ => load_any(s, at, size, Order::LE),
    }
}

fn load_be(s: &[u8], at: usize, size: usize) -> u64
    requires { (size ≤ 8) × (at + size ≤ length s.now) }
    ensures { (result ≡ container Order.BE (take size (drop at s.now))) × (result < 2 ^ (8 * size)) }
{
    match size {
        2 => be2(s, at),
        4 => be4(s, at),
        8 => be8(s, at),
        _ => load_any(s, at, size, Order::BE),
    }
}

// The number that size bytes of s from byte at on hold.
pub fn load(s: &[u8], at: ByteAt, size: ByteAt, order: Order) -> u64
    requires { (size.0 ≤ 8) × (at.0 + size.0 ≤ length s.now) }
    ensures { (result ≡ container order (take size.0 (drop at.0 s.now))) × (result < 2 ^ (8 * size.0)) }
{
    match order {
        Order::LE => load_le(s, at.0, size.0),
        Order::BE => load_be(s, at.0, size.0),
    }
}

// Some bits of the container c.
pub fn field_of(c: u64, offset: BitAt, precision: u32) -> u64
    requires { (offset.0 < 64) × (precision ≤ 64) }
    ensures { (result ≡ field offset.0 precision c) × (result < 2 ^ precision) }
{
    low_bits(c >> offset.0, precision)
}

// Some bits of the eight bytes of s from byte at on, whose bit 0 is at the lowest address.
pub fn bits_le(s: &[u8], at: ByteAt, offset: BitAt, precision: u32) -> u64
    requires { (at.0 + 8 ≤ length s.now) × (offset.0 < 64) × (precision ≤ 64) }
    ensures { (result ≡ field offset.0 precision (container Order.LE (take 8 (drop at.0 s.now)))) × (result < 2 ^ precision) }
{
    field_of(le8(s, at.0), offset, precision)
}

// The same where bit 0 is at the highest address.
pub fn bits_be(s: &[u8], at: ByteAt, offset: BitAt, precision: u32) -> u64
    requires { (at.0 + 8 ≤ length s.now) × (offset.0 < 64) × (precision ≤ 64) }
    ensures { (result ≡ field offset.0 precision (container Order.BE (take 8 (drop at.0 s.now)))) × (result < 2 ^ precision) }
{
    field_of(be8(s, at.0), offset, precision)
}

// The significant bits of a place, by one read of eight bytes. In BE the bytes behind the place lie below its bit 0.
pub fn window(
    s: &[u8],
    at: ByteAt,
    size: ByteAt,
    order: Order,
    offset: BitAt,
    precision: u32,
) -> u64
    requires { (at.0 + 8 ≤ length s.now) × (size.0 ≤ 8) × (1 ≤ precision) × (offset.0 + precision ≤ 8 * size.0) }
    ensures { (result ≡ field offset.0 precision (container order (take size.0 (drop at.0 s.now)))) × (result < 2 ^ precision) }
{
    match order {
        Order::LE => bits_le(s, at, offset, precision),
        Order::BE => {
            let behind = bits_of(ByteAt(WINDOW.0 - size.0));
            bits_be(s, at, BitAt(behind.0 + offset.0), precision)
        }
    }
}
