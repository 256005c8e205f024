// The same leaf of records that lie one after the other, read into numbers of 32 bits side by side: a column is loaded.
#![tactic(auto)]

ghost use Rattle.std.specs.Prelude.{◌≡◌, ℕ, ◌+◌, ◌*◌, ◌/◌, ◌%◌, ◌^◌, ◌≤◌, ◌<◌, length, get_or};
ghost use Rattle.blocks.specs.Blocks.{container_in};

use bits::{ByteAt, Order};
use loading::load;

// Two bytes of the other order: the compiler reads two bytes at once where they are read in LE, and the number is turned round then.
pub fn turned(c: u64) -> u64
    ensures { result ≡ c % 256 * 256 + c / 256 }
{
    c % 256 * 256 + c / 256
}

// The containers of size bytes at a byte of each of so many records.
fn load_each_32(
    src: &[u8],
    byte: usize,
    count: usize,
    record_size: usize,
    size: usize,
    order: Order,
    t: &mut [u32],
)
    requires { (count ≤ length t.old) × (size ≤ 4) × (byte + size ≤ record_size) × (count * record_size ≤ length src.now) }
    ensures { (i : ℕ) → i < count → get_or t.new i 0 ≡ container_in order size byte record_size src.now i }
{
    for i in 0..count {
        t[i] = load(&src[i * record_size..], ByteAt(byte), ByteAt(size), order) as u32;
    }
}

// The containers of one byte, which are the same in both orders.
fn load_bytes_32(src: &[u8], byte: usize, count: usize, record_size: usize, t: &mut [u32])
    requires { (count ≤ length t.old) × (byte + 1 ≤ record_size) × (count * record_size ≤ length src.now) }
    ensures { (order : Order) (i : ℕ) → i < count → get_or t.new i 0 ≡ container_in order 1 byte record_size src.now i }
{
    for i in 0..count {
        t[i] = src[i * record_size + byte] as u32;
    }
}

fn load_le2_32(src: &[u8], byte: usize, count: usize, record_size: usize, t: &mut [u32])
    requires { (count ≤ length t.old) × (byte + 2 ≤ record_size) × (count * record_size ≤ length src.now) }
    ensures { (i : ℕ) → i < count → get_or t.new i 0 ≡ container_in Order.LE 2 byte record_size src.now i }
{
    load_each_32(src, byte, count, record_size, 2, Order::LE, t);
}

fn load_le4_32(src: &[u8], byte: usize, count: usize, record_size: usize, t: &mut [u32])
    requires { (count ≤ length t.old) × (byte + 4 ≤ record_size) × (count * record_size ≤ length src.now) }
    ensures { (i : ℕ) → i < count → get_or t.new i 0 ≡ container_in Order.LE 4 byte record_size src.now i }
{
    load_each_32(src, byte, count, record_size, 4, Order::LE, t);
}

// The containers of two bytes in BE.
fn load_turned_32(src: &[u8], byte: usize, count: usize, record_size: usize, t: &mut [u32])
    requires { (count ≤ length t.old) × (byte + 2 ≤ record_size) × (count * record_size ≤ length src.now) }
    ensures { (i : ℕ) → i < count → get_or t.new i 0 ≡ container_in Order.BE 2 byte record_size src.now i }
{
    for i in 0..count {
        let c = load(&src[i * record_size..], ByteAt(byte), ByteAt(2), Order::LE);
        t[i] = turned(c) as u32;
    }
}

fn turned_32(c: u32) -> u32
    ensures { result ≡ c % 256 * 256 + c / 256 }
{
    c % 256 * 256 + c / 256
}

// So many numbers turned round where they are, of which the compiler makes vectors.
fn turn_each_32(t: &mut [u32], count: usize)
    requires { count ≤ length t.old }
    ensures { (i : ℕ) → i < count → get_or t.new i 0 ≡ get_or t.old i 0 % 256 * 256 + get_or t.old i 0 / 256 }
{
    for i in 0..count {
        t[i] = turned_32(t[i]);
    }
}

// The containers of two bytes in BE, turned round once all are there: faster where records lie apart.
fn load_then_turn_32(src: &[u8], byte: usize, count: usize, record_size: usize, t: &mut [u32])
    requires { (count ≤ length t.old) × (byte + 2 ≤ record_size) × (count * record_size ≤ length src.now) }
    ensures { (i : ℕ) → i < count → get_or t.new i 0 ≡ container_in Order.BE 2 byte record_size src.now i }
{
    load_le2_32(src, byte, count, record_size, t);
    turn_each_32(t, count);
}

fn load_be4_32(src: &[u8], byte: usize, count: usize, record_size: usize, t: &mut [u32])
    requires { (count ≤ length t.old) × (byte + 4 ≤ record_size) × (count * record_size ≤ length src.now) }
    ensures { (i : ℕ) → i < count → get_or t.new i 0 ≡ container_in Order.BE 4 byte record_size src.now i }
{
    load_each_32(src, byte, count, record_size, 4, Order::BE, t);
}

fn load_le_32(src: &[u8], byte: usize, count: usize, record_size: usize, size: usize, t: &mut [u32])
    requires { (count ≤ length t.old) × (size ≤ 4) × (byte + size ≤ record_size) × (count * record_size ≤ length src.now) }
    ensures { (i : ℕ) → i < count → get_or t.new i 0 ≡ container_in Order.LE size byte record_size src.now i }
{
    match size {
        1 => load_bytes_32(src, byte, count, record_size, t),
        2 => load_le2_32(src, byte, count, record_size, t),
        4 => load_le4_32(src, byte, count, record_size, t),
        _ => load_each_32(src, byte, count, record_size, size, Order::LE, t),
    }
}

fn load_be_32(src: &[u8], byte: usize, count: usize, record_size: usize, size: usize, t: &mut [u32])
    requires { (count ≤ length t.old) × (size ≤ 4) × (byte + size ≤ record_size) × (count * record_size ≤ length src.now) }
    ensures { (i : ℕ) → i < count → get_or t.new i 0 ≡ container_in Order.BE size byte record_size src.now i }
{
    match size {
        1 => load_bytes_32(src, byte, count, record_size, t),
        2 => load_then_turn_32(src, byte, count, record_size, t),
        4 => load_be4_32(src, byte, count, record_size, t),
        _ => load_each_32(src, byte, count, record_size, size, Order::BE, t),
    }
}

fn load_strided_32(
    src: &[u8],
    byte: usize,
    count: usize,
    record_size: usize,
    size: usize,
    order: Order,
    t: &mut [u32],
)
    requires { (count ≤ length t.old) × (size ≤ 4) × (byte + size ≤ record_size) × (count * record_size ≤ length src.now) }
    ensures { (i : ℕ) → i < count → get_or t.new i 0 ≡ container_in order size byte record_size src.now i }
{
    match order {
        Order::LE => load_le_32(src, byte, count, record_size, size, t),
        Order::BE => load_be_32(src, byte, count, record_size, size, t),
    }
}

// Records that lie without gaps: the distance from one to the next is a constant too, for which the compiler makes vectors. Each size
// has a function of its own, where the constants are not lost.
fn load_bytes_dense_32(src: &[u8], count: usize, t: &mut [u32])
    requires { (count ≤ length t.old) × (count * 1 ≤ length src.now) }
    ensures { (order : Order) (i : ℕ) → i < count → get_or t.new i 0 ≡ container_in order 1 0 1 src.now i }
{
    load_bytes_32(src, 0, count, 1, t);
}

fn load_le2_dense_32(src: &[u8], count: usize, t: &mut [u32])
    requires { (count ≤ length t.old) × (count * 2 ≤ length src.now) }
    ensures { (i : ℕ) → i < count → get_or t.new i 0 ≡ container_in Order.LE 2 0 2 src.now i }
{
    load_each_32(src, 0, count, 2, 2, Order::LE, t);
}

fn load_le4_dense_32(src: &[u8], count: usize, t: &mut [u32])
    requires { (count ≤ length t.old) × (count * 4 ≤ length src.now) }
    ensures { (i : ℕ) → i < count → get_or t.new i 0 ≡ container_in Order.LE 4 0 4 src.now i }
{
    load_each_32(src, 0, count, 4, 4, Order::LE, t);
}

fn load_turned_dense_32(src: &[u8], count: usize, t: &mut [u32])
    requires { (count ≤ length t.old) × (count * 2 ≤ length src.now) }
    ensures { (i : ℕ) → i < count → get_or t.new i 0 ≡ container_in Order.BE 2 0 2 src.now i }
{
    load_turned_32(src, 0, count, 2, t);
}

fn load_le_dense_32(src: &[u8], count: usize, size: usize, t: &mut [u32])
    requires { (count ≤ length t.old) × (size ≤ 4) × (count * size ≤ length src.now) }
    ensures { (i : ℕ) → i < count → get_or t.new i 0 ≡ container_in Order.LE size 0 size src.now i }
{
    match size {
        1 => load_bytes_dense_32(src, count, t),
        2 => load_le2_dense_32(src, count, t),
        4 => load_le4_dense_32(src, count, t),
        _ => load_le_32(src, 0, count, size, size, t),
    }
}

fn load_be_dense_32(src: &[u8], count: usize, size: usize, t: &mut [u32])
    requires { (count ≤ length t.old) × (size ≤ 4) × (count * size ≤ length src.now) }
    ensures { (i : ℕ) → i < count → get_or t.new i 0 ≡ container_in Order.BE size 0 size src.now i }
{
    match size {
        1 => load_bytes_dense_32(src, count, t),
        2 => load_turned_dense_32(src, count, t),
        _ => load_be_32(src, 0, count, size, size, t),
    }
}

fn load_dense_32(src: &[u8], count: usize, size: usize, order: Order, t: &mut [u32])
    requires { (count ≤ length t.old) × (size ≤ 4) × (count * size ≤ length src.now) }
    ensures { (i : ℕ) → i < count → get_or t.new i 0 ≡ container_in order size 0 size src.now i }
{
    match order {
        Order::LE => load_le_dense_32(src, count, size, t),
        Order::BE => load_be_dense_32(src, count, size, t),
    }
}

// The same, with a loop of its own for each of the usual sizes, and where records lie without gaps.
pub fn load_32(
    src: &[u8],
    byte: usize,
    count: usize,
    record_size: usize,
    size: usize,
    order: Order,
    t: &mut [u32],
)
    requires { (count ≤ length t.old) × (size ≤ 4) × (byte + size ≤ record_size) × (count * record_size ≤ length src.now) }
    ensures { (i : ℕ) → i < count → get_or t.new i 0 ≡ container_in order size byte record_size src.now i }
{
    if record_size == size {
        load_dense_32(src, count, size, order, t);
        return;
    }
    load_strided_32(src, byte, count, record_size, size, order, t);
}
