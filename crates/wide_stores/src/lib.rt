// A column is stored as in `column_stores`, of numbers of 64 bits.
#![tactic(auto)]

ghost use Rattle.std.specs.Prelude.{◌≡◌, ℕ, ◌+◌, ◌*◌, ◌^◌, ◌≤◌, ◌<◌, length, get_or};
ghost use Rattle.blocks.specs.Blocks.{each_record, merge_in};

use bits::{ByteAt, Order};
use column_merges::merge_64;
use storing::store;

// So many containers of size bytes to a byte of each record, where nothing of the background stays.
fn store_each_64(
    dst: &mut [u8],
    byte: usize,
    count: usize,
    record_size: usize,
    size: usize,
    order: Order,
    t: &[u64],
)
    requires { (count ≤ length t.now) × (size ≤ 8) × (byte + size ≤ record_size) × (count * record_size ≤ length dst.old) }
    ensures { dst.new ≡ each_record (λ i x. merge_in order size byte 0 (get_or t.now i 0) x) record_size count dst.old }
{
    let mut start: usize = 0;
    for i in 0..count {
        store(&mut dst[start..], ByteAt(byte), ByteAt(size), order, t[i]);
        start += record_size;
    }
}

fn store_le1_64(dst: &mut [u8], byte: usize, count: usize, record_size: usize, t: &[u64])
    requires { (count ≤ length t.now) × (byte + 1 ≤ record_size) × (count * record_size ≤ length dst.old) }
    ensures { dst.new ≡ each_record (λ i x. merge_in Order.LE 1 byte 0 (get_or t.now i 0) x) record_size count dst.old }
{
    store_each_64(dst, byte, count, record_size, 1, Order::LE, t);
}

fn store_le2_64(dst: &mut [u8], byte: usize, count: usize, record_size: usize, t: &[u64])
    requires { (count ≤ length t.now) × (byte + 2 ≤ record_size) × (count * record_size ≤ length dst.old) }
    ensures { dst.new ≡ each_record (λ i x. merge_in Order.LE 2 byte 0 (get_or t.now i 0) x) record_size count dst.old }
{
    store_each_64(dst, byte, count, record_size, 2, Order::LE, t);
}

fn store_le4_64(dst: &mut [u8], byte: usize, count: usize, record_size: usize, t: &[u64])
    requires { (count ≤ length t.now) × (byte + 4 ≤ record_size) × (count * record_size ≤ length dst.old) }
    ensures { dst.new ≡ each_record (λ i x. merge_in Order.LE 4 byte 0 (get_or t.now i 0) x) record_size count dst.old }
{
    store_each_64(dst, byte, count, record_size, 4, Order::LE, t);
}

fn store_le8_64(dst: &mut [u8], byte: usize, count: usize, record_size: usize, t: &[u64])
    requires { (count ≤ length t.now) × (byte + 8 ≤ record_size) × (count * record_size ≤ length dst.old) }
    ensures { dst.new ≡ each_record (λ i x. merge_in Order.LE 8 byte 0 (get_or t.now i 0) x) record_size count dst.old }
{
    store_each_64(dst, byte, count, record_size, 8, Order::LE, t);
}

fn store_be1_64(dst: &mut [u8], byte: usize, count: usize, record_size: usize, t: &[u64])
    requires { (count ≤ length t.now) × (byte + 1 ≤ record_size) × (count * record_size ≤ length dst.old) }
    ensures { dst.new ≡ each_record (λ i x. merge_in Order.BE 1 byte 0 (get_or t.now i 0) x) record_size count dst.old }
{
    store_each_64(dst, byte, count, record_size, 1, Order::BE, t);
}

fn store_be2_64(dst: &mut [u8], byte: usize, count: usize, record_size: usize, t: &[u64])
    requires { (count ≤ length t.now) × (byte + 2 ≤ record_size) × (count * record_size ≤ length dst.old) }
    ensures { dst.new ≡ each_record (λ i x. merge_in Order.BE 2 byte 0 (get_or t.now i 0) x) record_size count dst.old }
{
    store_each_64(dst, byte, count, record_size, 2, Order::BE, t);
}

fn store_be4_64(dst: &mut [u8], byte: usize, count: usize, record_size: usize, t: &[u64])
    requires { (count ≤ length t.now) × (byte + 4 ≤ record_size) × (count * record_size ≤ length dst.old) }
    ensures { dst.new ≡ each_record (λ i x. merge_in Order.BE 4 byte 0 (get_or t.now i 0) x) record_size count dst.old }
{
    store_each_64(dst, byte, count, record_size, 4, Order::BE, t);
}

fn store_be8_64(dst: &mut [u8], byte: usize, count: usize, record_size: usize, t: &[u64])
    requires { (count ≤ length t.now) × (byte + 8 ≤ record_size) × (count * record_size ≤ length dst.old) }
    ensures { dst.new ≡ each_record (λ i x. merge_in Order.BE 8 byte 0 (get_or t.now i 0) x) record_size count dst.old }
{
    store_each_64(dst, byte, count, record_size, 8, Order::BE, t);
}

fn store_le_strided_64(
    dst: &mut [u8],
    byte: usize,
    count: usize,
    record_size: usize,
    size: usize,
    t: &[u64],
)
    requires { (count ≤ length t.now) × (size ≤ 8) × (byte + size ≤ record_size) × (count * record_size ≤ length dst.old) }
    ensures { dst.new ≡ each_record (λ i x. merge_in Order.LE size byte 0 (get_or t.now i 0) x) record_size count dst.old }
{
    match size {
        1 => store_le1_64(dst, byte, count, record_size, t),
        2 => store_le2_64(dst, byte, count, record_size, t),
        4 => store_le4_64(dst, byte, count, record_size, t),
        8 => store_le8_64(dst, byte, count, record_size, t),
        _ => store_each_64(dst, byte, count, record_size, size, Order::LE, t),
    }
}

// Records that lie without gaps: the distance from one to the next is a constant too, for which the compiler makes vectors. Each size
// has a function of its own, where the constants are not lost.
fn store_le1_dense_64(dst: &mut [u8], count: usize, t: &[u64])
    requires { (count ≤ length t.now) × (count * 1 ≤ length dst.old) }
    ensures { dst.new ≡ each_record (λ i x. merge_in Order.LE 1 0 0 (get_or t.now i 0) x) 1 count dst.old }
{
    store_each_64(dst, 0, count, 1, 1, Order::LE, t);
}

fn store_le2_dense_64(dst: &mut [u8], count: usize, t: &[u64])
    requires { (count ≤ length t.now) × (count * 2 ≤ length dst.old) }
    ensures { dst.new ≡ each_record (λ i x. merge_in Order.LE 2 0 0 (get_or t.now i 0) x) 2 count dst.old }
{
    store_each_64(dst, 0, count, 2, 2, Order::LE, t);
}

fn store_le4_dense_64(dst: &mut [u8], count: usize, t: &[u64])
    requires { (count ≤ length t.now) × (count * 4 ≤ length dst.old) }
    ensures { dst.new ≡ each_record (λ i x. merge_in Order.LE 4 0 0 (get_or t.now i 0) x) 4 count dst.old }
{
    store_each_64(dst, 0, count, 4, 4, Order::LE, t);
}

fn store_le8_dense_64(dst: &mut [u8], count: usize, t: &[u64])
    requires { (count ≤ length t.now) × (count * 8 ≤ length dst.old) }
    ensures { dst.new ≡ each_record (λ i x. merge_in Order.LE 8 0 0 (get_or t.now i 0) x) 8 count dst.old }
{
    store_each_64(dst, 0, count, 8, 8, Order::LE, t);
}

fn store_le_dense_64(dst: &mut [u8], count: usize, size: usize, t: &[u64])
    requires { (count ≤ length t.now) × (size ≤ 8) × (count * size ≤ length dst.old) }
    ensures { dst.new ≡ each_record (λ i x. merge_in Order.LE size 0 0 (get_or t.now i 0) x) size count dst.old }
{
    match size {
        1 => store_le1_dense_64(dst, count, t),
        2 => store_le2_dense_64(dst, count, t),
        4 => store_le4_dense_64(dst, count, t),
        8 => store_le8_dense_64(dst, count, t),
        _ => store_each_64(dst, 0, count, size, size, Order::LE, t),
    }
}

fn store_le_64(
    dst: &mut [u8],
    byte: usize,
    count: usize,
    record_size: usize,
    size: usize,
    t: &[u64],
)
    requires { (count ≤ length t.now) × (size ≤ 8) × (byte + size ≤ record_size) × (count * record_size ≤ length dst.old) }
    ensures { dst.new ≡ each_record (λ i x. merge_in Order.LE size byte 0 (get_or t.now i 0) x) record_size count dst.old }
{
    if record_size == size {
        store_le_dense_64(dst, count, size, t);
        return;
    }
    store_le_strided_64(dst, byte, count, record_size, size, t);
}

fn store_be_64(
    dst: &mut [u8],
    byte: usize,
    count: usize,
    record_size: usize,
    size: usize,
    t: &[u64],
)
    requires { (count ≤ length t.now) × (size ≤ 8) × (byte + size ≤ record_size) × (count * record_size ≤ length dst.old) }
    ensures { dst.new ≡ each_record (λ i x. merge_in Order.BE size byte 0 (get_or t.now i 0) x) record_size count dst.old }
{
    match size {
        1 => store_be1_64(dst, byte, count, record_size, t),
        2 => store_be2_64(dst, byte, count, record_size, t),
        4 => store_be4_64(dst, byte, count, record_size, t),
        8 => store_be8_64(dst, byte, count, record_size, t),
        _ => store_each_64(dst, byte, count, record_size, size, Order::BE, t),
    }
}

fn store_whole_64(
    dst: &mut [u8],
    byte: usize,
    count: usize,
    record_size: usize,
    size: usize,
    order: Order,
    t: &[u64],
)
    requires { (count ≤ length t.now) × (size ≤ 8) × (byte + size ≤ record_size) × (count * record_size ≤ length dst.old) }
    ensures { dst.new ≡ each_record (λ i x. merge_in order size byte 0 (get_or t.now i 0) x) record_size count dst.old }
{
    match order {
        Order::LE => store_le_64(dst, byte, count, record_size, size, t),
        Order::BE => store_be_64(dst, byte, count, record_size, size, t),
    }
}

// So many containers of size bytes to a byte of each record, with the background's bits under keep; with a loop of its own for each of the usual sizes, and where nothing stays.
pub fn store_64(
    dst: &mut [u8],
    byte: usize,
    count: usize,
    record_size: usize,
    size: usize,
    order: Order,
    t: &[u64],
    keep: u64,
)
    requires { (count ≤ length t.now) × (size ≤ 8) × (byte + size ≤ record_size) × (count * record_size ≤ length dst.old) × ((i : ℕ) → i < count → get_or t.now i 0 + keep < 2 ^ 64) }
    ensures { dst.new ≡ each_record (λ i x. merge_in order size byte keep (get_or t.now i 0) x) record_size count dst.old }
{
    if keep == 0 {
        store_whole_64(dst, byte, count, record_size, size, order, t);
        return;
    }
    merge_64(dst, byte, count, record_size, size, order, t, keep);
}
