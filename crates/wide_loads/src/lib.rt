// A column is loaded as in `column_loads`, into numbers of 64 bits.
#![tactic(auto)]

ghost use Rattle.std.specs.Prelude.{◌≡◌, ℕ, ◌+◌, ◌*◌, ◌^◌, ◌≤◌, ◌<◌, length, get_or};
ghost use Rattle.blocks.specs.Blocks.{container_in};

use bits::{ByteAt, Order};
use column_loads::turned;
use loading::load;

// The containers of size bytes at a byte of each of so many records.
fn load_each_64(
    src: &[u8],
    byte: usize,
    count: usize,
    record_size: usize,
    size: usize,
    order: Order,
    t: &mut [u64],
)
    requires { (count ≤ length t.old) × (size ≤ 8) × (byte + size ≤ record_size) × (count * record_size ≤ length src.now) }
    ensures { (i : ℕ) → i < count → get_or t.new i 0 ≡ container_in order size byte record_size src.now i }
{
    for i in 0..count {
        t[i] = load(&src[i * record_size..], ByteAt(byte), ByteAt(size), order);
    }
}

// The containers of one byte, which are the same in both orders.
fn load_bytes_64(src: &[u8], byte: usize, count: usize, record_size: usize, t: &mut [u64])
    requires { (count ≤ length t.old) × (byte + 1 ≤ record_size) × (count * record_size ≤ length src.now) }
    ensures { (order : Order) (i : ℕ) → i < count → get_or t.new i 0 ≡ container_in order 1 byte record_size src.now i }
{
    for i in 0..count {
        t[i] = src[i * record_size + byte] as u64;
    }
}

fn load_le2_64(src: &[u8], byte: usize, count: usize, record_size: usize, t: &mut [u64])
    requires { (count ≤ length t.old) × (byte + 2 ≤ record_size) × (count * record_size ≤ length src.now) }
    ensures { (i : ℕ) → i < count → get_or t.new i 0 ≡ container_in Order.LE 2 byte record_size src.now i }
{
    load_each_64(src, byte, count, record_size, 2, Order::LE, t);
}

fn load_le4_64(src: &[u8], byte: usize, count: usize, record_size: usize, t: &mut [u64])
    requires { (count ≤ length t.old) × (byte + 4 ≤ record_size) × (count * record_size ≤ length src.now) }
    ensures { (i : ℕ) → i < count → get_or t.new i 0 ≡ container_in Order.LE 4 byte record_size src.now i }
{
    load_each_64(src, byte, count, record_size, 4, Order::LE, t);
}

fn load_le8_64(src: &[u8], byte: usize, count: usize, record_size: usize, t: &mut [u64])
    requires { (count ≤ length t.old) × (byte + 8 ≤ record_size) × (count * record_size ≤ length src.now) }
    ensures { (i : ℕ) → i < count → get_or t.new i 0 ≡ container_in Order.LE 8 byte record_size src.now i }
{
    load_each_64(src, byte, count, record_size, 8, Order::LE, t);
}

// The containers of two bytes in BE.
fn load_turned_64(src: &[u8], byte: usize, count: usize, record_size: usize, t: &mut [u64])
    requires { (count ≤ length t.old) × (byte + 2 ≤ record_size) × (count * record_size ≤ length src.now) }
    ensures { (i : ℕ) → i < count → get_or t.new i 0 ≡ container_in Order.BE 2 byte record_size src.now i }
{
    for i in 0..count {
        let c = load(&src[i * record_size..], ByteAt(byte), ByteAt(2), Order::LE);
        t[i] = turned(c);
    }
}

fn load_be4_64(src: &[u8], byte: usize, count: usize, record_size: usize, t: &mut [u64])
    requires { (count ≤ length t.old) × (byte + 4 ≤ record_size) × (count * record_size ≤ length src.now) }
    ensures { (i : ℕ) → i < count → get_or t.new i 0 ≡ container_in Order.BE 4 byte record_size src.now i }
{
    load_each_64(src, byte, count, record_size, 4, Order::BE, t);
}

fn load_be8_64(src: &[u8], byte: usize, count: usize, record_size: usize, t: &mut [u64])
    requires { (count ≤ length t.old) × (byte + 8 ≤ record_size) × (count * record_size ≤ length src.now) }
    ensures { (i : ℕ) → i < count → get_or t.new i 0 ≡ container_in Order.BE 8 byte record_size src.now i }
{
    load_each_64(src, byte, count, record_size, 8, Order::BE, t);
}

fn load_le_64(src: &[u8], byte: usize, count: usize, record_size: usize, size: usize, t: &mut [u64])
    requires { (count ≤ length t.old) × (size ≤ 8) × (byte + size ≤ record_size) × (count * record_size ≤ length src.now) }
    ensures { (i : ℕ) → i < count → get_or t.new i 0 ≡ container_in Order.LE size byte record_size src.now i }
{
    match size {
        1 => load_bytes_64(src, byte, count, record_size, t),
        2 => load_le2_64(src, byte, count, record_size, t),
        4 => load_le4_64(src, byte, count, record_size, t),
        8 => load_le8_64(src, byte, count, record_size, t),
        _ => load_each_64(src, byte, count, record_size, size, Order::LE, t),
    }
}

fn load_be_64(src: &[u8], byte: usize, count: usize, record_size: usize, size: usize, t: &mut [u64])
    requires { (count ≤ length t.old) × (size ≤ 8) × (byte + size ≤ record_size) × (count * record_size ≤ length src.now) }
    ensures { (i : ℕ) → i < count → get_or t.new i 0 ≡ container_in Order.BE size byte record_size src.now i }
{
    match size {
        1 => load_bytes_64(src, byte, count, record_size, t),
        2 => load_turned_64(src, byte, count, record_size, t),
        4 => load_be4_64(src, byte, count, record_size, t),
        8 => load_be8_64(src, byte, count, record_size, t),
        _ => load_each_64(src, byte, count, record_size, size, Order::BE, t),
    }
}

fn load_strided_64(
    src: &[u8],
    byte: usize,
    count: usize,
    record_size: usize,
    size: usize,
    order: Order,
    t: &mut [u64],
)
    requires { (count ≤ length t.old) × (size ≤ 8) × (byte + size ≤ record_size) × (count * record_size ≤ length src.now) }
    ensures { (i : ℕ) → i < count → get_or t.new i 0 ≡ container_in order size byte record_size src.now i }
{
    match order {
        Order::LE => load_le_64(src, byte, count, record_size, size, t),
        Order::BE => load_be_64(src, byte, count, record_size, size, t),
    }
}

// Records that lie without gaps: the distance from one to the next is a constant too, for which the compiler makes vectors. Each size
// has a function of its own, where the constants are not lost.
fn load_bytes_dense_64(src: &[u8], count: usize, t: &mut [u64])
    requires { (count ≤ length t.old) × (count * 1 ≤ length src.now) }
    ensures { (order : Order) (i : ℕ) → i < count → get_or t.new i 0 ≡ container_in order 1 0 1 src.now i }
{
    load_bytes_64(src, 0, count, 1, t);
}

fn load_le2_dense_64(src: &[u8], count: usize, t: &mut [u64])
    requires { (count ≤ length t.old) × (count * 2 ≤ length src.now) }
    ensures { (i : ℕ) → i < count → get_or t.new i 0 ≡ container_in Order.LE 2 0 2 src.now i }
{
    load_each_64(src, 0, count, 2, 2, Order::LE, t);
}

fn load_le4_dense_64(src: &[u8], count: usize, t: &mut [u64])
    requires { (count ≤ length t.old) × (count * 4 ≤ length src.now) }
    ensures { (i : ℕ) → i < count → get_or t.new i 0 ≡ container_in Order.LE 4 0 4 src.now i }
{
    load_each_64(src, 0, count, 4, 4, Order::LE, t);
}

fn load_le8_dense_64(src: &[u8], count: usize, t: &mut [u64])
    requires { (count ≤ length t.old) × (count * 8 ≤ length src.now) }
    ensures { (i : ℕ) → i < count → get_or t.new i 0 ≡ container_in Order.LE 8 0 8 src.now i }
{
    load_each_64(src, 0, count, 8, 8, Order::LE, t);
}

fn load_turned_dense_64(src: &[u8], count: usize, t: &mut [u64])
    requires { (count ≤ length t.old) × (count * 2 ≤ length src.now) }
    ensures { (i : ℕ) → i < count → get_or t.new i 0 ≡ container_in Order.BE 2 0 2 src.now i }
{
    load_turned_64(src, 0, count, 2, t);
}

fn load_le_dense_64(src: &[u8], count: usize, size: usize, t: &mut [u64])
    requires { (count ≤ length t.old) × (size ≤ 8) × (count * size ≤ length src.now) }
    ensures { (i : ℕ) → i < count → get_or t.new i 0 ≡ container_in Order.LE size 0 size src.now i }
{
    match size {
        1 => load_bytes_dense_64(src, count, t),
        2 => load_le2_dense_64(src, count, t),
        4 => load_le4_dense_64(src, count, t),
        8 => load_le8_dense_64(src, count, t),
        _ => load_le_64(src, 0, count, size, size, t),
    }
}

fn load_be_dense_64(src: &[u8], count: usize, size: usize, t: &mut [u64])
    requires { (count ≤ length t.old) × (size ≤ 8) × (count * size ≤ length src.now) }
    ensures { (i : ℕ) → i < count → get_or t.new i 0 ≡ container_in Order.BE size 0 size src.now i }
{
    match size {
        1 => load_bytes_dense_64(src, count, t),
        2 => load_turned_dense_64(src, count, t),
        _ => load_be_64(src, 0, count, size, size, t),
    }
}

fn load_dense_64(src: &[u8], count: usize, size: usize, order: Order, t: &mut [u64])
    requires { (count ≤ length t.old) × (size ≤ 8) × (count * size ≤ length src.now) }
    ensures { (i : ℕ) → i < count → get_or t.new i 0 ≡ container_in order size 0 size src.now i }
{
    match order {
        Order::LE => load_le_dense_64(src, count, size, t),
        Order::BE => load_be_dense_64(src, count, size, t),
    }
}

// The same, with a loop of its own for each of the usual sizes, and where records lie without gaps.
pub fn load_64(
    src: &[u8],
    byte: usize,
    count: usize,
    record_size: usize,
    size: usize,
    order: Order,
    t: &mut [u64],
)
    requires { (count ≤ length t.old) × (size ≤ 8) × (byte + size ≤ record_size) × (count * record_size ≤ length src.now) }
    ensures { (i : ℕ) → i < count → get_or t.new i 0 ≡ container_in order size byte record_size src.now i }
{
    if record_size == size {
        load_dense_64(src, count, size, order, t);
        return;
    }
    load_strided_64(src, byte, count, record_size, size, order, t);
}
