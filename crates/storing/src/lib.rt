// Writes a container: the bytes of a number, in place of as many bytes.
#![tactic(auto)]

ghost use Rattle.std.specs.Prelude.{◌≡◌, ◌+◌, ◌*◌, ◌/◌, ◌%◌, ◌^◌, ◌≤◌, ◌<◌, length, set, get_or};
ghost use Rattle.std.proofs.Math.Seq.{paste};
ghost use Rattle.bits.specs.Container.{contained};

use bits::shift::shift_right;
use bits::{ByteAt, Order, bits_of, index_of};

// The byte of significance k of c.
fn byte_of(c: u64, k: ByteAt) -> u8
    requires { k.0 < 8 }
    ensures { result ≡ c / 2 ^ (8 * k.0) % 256 }
{
    let k = bits_of(k);
    (shift_right(c, k.0) % 256) as u8
}

// The byte at place i of c's size bytes, written to d.
fn put_one(d: &mut [u8], at: usize, size: usize, order: Order, c: u64, i: usize)
    requires { (size ≤ 8) × (i < size) × (at + size ≤ length d.old) }
    ensures { (d.new ≡ set d.old (at + i) (get_or (contained order size c) i 0)) × (length d.new ≡ length d.old) }
{
    let j = at + i;
    let k = index_of(order, size, i);
    d[j] = byte_of(c, ByteAt(k));
}

// The size bytes of c, written to d from index at, for any size.
fn put_any(d: &mut [u8], at: usize, size: usize, order: Order, c: u64)
    requires { (size ≤ 8) × (at + size ≤ length d.old) }
    ensures { d.new ≡ paste d.old at (contained order size c) size }
{
    for i in 0..size {
        put_one(d, at, size, order, c, i);
    }
}

// The same where the size is a constant.
fn put<const N: usize>(d: &mut [u8], at: usize, order: Order, c: u64)
    requires { (N ≤ 8) × (at + N ≤ length d.old) }
    ensures { d.new ≡ paste d.old at (contained order N c) N }
{
    for i in 0..N {
        put_one(d, at, N, order, c, i);
    }
}

fn put_le(d: &mut [u8], at: usize, size: usize, c: u64)
    requires { (size ≤ 8) × (at + size ≤ length d.old) }
    ensures { d.new ≡ paste d.old at (contained Order.LE size c) size }
{
    match size {
        1 => put::<1>(d, at, Order::LE, c),
        2 => put::<2>(d, at, Order::LE, c),
        4 => put::<4>(d, at, Order::LE, c),
        8 => put::<8>(d, at, Order::LE, c),
        _ => put_any(d, at, size, Order::LE, c),
    }
}

fn put_be(d: &mut [u8], at: usize, size: usize, c: u64)
    requires { (size ≤ 8) × (at + size ≤ length d.old) }
    ensures { d.new ≡ paste d.old at (contained Order.BE size c) size }
{
    match size {
        1 => put::<1>(d, at, Order::BE, c),
        2 => put::<2>(d, at, Order::BE, c),
        4 => put::<4>(d, at, Order::BE, c),
        8 => put::<8>(d, at, Order::BE, c),
        _ => put_any(d, at, size, Order::BE, c),
    }
}

// The size bytes of c, written to d from byte at on. Each order has a function of its own, where it is a constant: two calls that
// differ in a constant alone are merged by the compiler, and the constant is lost.
pub fn store(d: &mut [u8], at: ByteAt, size: ByteAt, order: Order, c: u64)
    requires { (size.0 ≤ 8) × (at.0 + size.0 ≤ length d.old) }
    ensures { d.new ≡ paste d.old at.0 (contained order size.0 c) size.0 }
{
    match order {
        Order::LE => put_le(d, at.0, size.0, c),
        Order::BE => put_be(d, at.0, size.0, c),
    }
}
