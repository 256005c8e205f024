// Numbers side by side, written to the same leaf of records that lie one after the other, among bits of the background that stay.
#![tactic(auto)]

ghost use Rattle.std.specs.Prelude.{◌≡◌, ℕ, ◌+◌, ◌*◌, ◌^◌, ◌≤◌, ◌<◌, length, get_or};
ghost use Rattle.blocks.specs.Blocks.{each_record, merge_in};

use bits::{ByteAt, Order};
use loading::load;
use storing::store;

// ---- numbers of 32 bits

// So many containers of size bytes to a byte of each record, with the background's bits under keep.
fn merge_each_32(
    dst: &mut [u8],
    byte: usize,
    count: usize,
    record_size: usize,
    size: usize,
    order: Order,
    t: &[u32],
    keep: u32,
)
    requires { (count ≤ length t.now) × (size ≤ 4) × (byte + size ≤ record_size) × (count * record_size ≤ length dst.old) × ((i : ℕ) → i < count → get_or t.now i 0 + keep < 2 ^ 32) }
    ensures { dst.new ≡ each_record (λ i x. merge_in order size byte keep (get_or t.now i 0) x) record_size count dst.old }
{
    let mut start: usize = 0;
    for i in 0..count {
        let background = load(&dst[start..], ByteAt(byte), ByteAt(size), order);
        let c = t[i] as u64 + (background & keep as u64);
        store(&mut dst[start..], ByteAt(byte), ByteAt(size), order, c);
        start += record_size;
    }
}

fn merge_le1_32(dst: &mut [u8], byte: usize, count: usize, record_size: usize, t: &[u32], keep: u32)
    requires { (count ≤ length t.now) × (byte + 1 ≤ record_size) × (count * record_size ≤ length dst.old) × ((i : ℕ) → i < count → get_or t.now i 0 + keep < 2 ^ 32) }
    ensures { dst.new ≡ each_record (λ i x. merge_in Order.LE 1 byte keep (get_or t.now i 0) x) record_size count dst.old }
{
    merge_each_32(dst, byte, count, record_size, 1, Order::LE, t, keep);
}

fn merge_le2_32(dst: &mut [u8], byte: usize, count: usize, record_size: usize, t: &[u32], keep: u32)
    requires { (count ≤ length t.now) × (byte + 2 ≤ record_size) × (count * record_size ≤ length dst.old) × ((i : ℕ) → i < count → get_or t.now i 0 + keep < 2 ^ 32) }
    ensures { dst.new ≡ each_record (λ i x. merge_in Order.LE 2 byte keep (get_or t.now i 0) x) record_size count dst.old }
{
    merge_each_32(dst, byte, count, record_size, 2, Order::LE, t, keep);
}

fn merge_le4_32(dst: &mut [u8], byte: usize, count: usize, record_size: usize, t: &[u32], keep: u32)
    requires { (count ≤ length t.now) × (byte + 4 ≤ record_size) × (count * record_size ≤ length dst.old) × ((i : ℕ) → i < count → get_or t.now i 0 + keep < 2 ^ 32) }
    ensures { dst.new ≡ each_record (λ i x. merge_in Order.LE 4 byte keep (get_or t.now i 0) x) record_size count dst.old }
{
    merge_each_32(dst, byte, count, record_size, 4, Order::LE, t, keep);
}

fn merge_be2_32(dst: &mut [u8], byte: usize, count: usize, record_size: usize, t: &[u32], keep: u32)
    requires { (count ≤ length t.now) × (byte + 2 ≤ record_size) × (count * record_size ≤ length dst.old) × ((i : ℕ) → i < count → get_or t.now i 0 + keep < 2 ^ 32) }
    ensures { dst.new ≡ each_record (λ i x. merge_in Order.BE 2 byte keep (get_or t.now i 0) x) record_size count dst.old }
{
    merge_each_32(dst, byte, count, record_size, 2, Order::BE, t, keep);
}

fn merge_be4_32(dst: &mut [u8], byte: usize, count: usize, record_size: usize, t: &[u32], keep: u32)
    requires { (count ≤ length t.now) × (byte + 4 ≤ record_size) × (count * record_size ≤ length dst.old) × ((i : ℕ) → i < count → get_or t.now i 0 + keep < 2 ^ 32) }
    ensures { dst.new ≡ each_record (λ i x. merge_in Order.BE 4 byte keep (get_or t.now i 0) x) record_size count dst.old }
{
    merge_each_32(dst, byte, count, record_size, 4, Order::BE, t, keep);
}

fn merge_le_32(
    dst: &mut [u8],
    byte: usize,
    count: usize,
    record_size: usize,
    size: usize,
    t: &[u32],
    keep: u32,
)
    requires { (count ≤ length t.now) × (size ≤ 4) × (byte + size ≤ record_size) × (count * record_size ≤ length dst.old) × ((i : ℕ) → i < count → get_or t.now i 0 + keep < 2 ^ 32) }
    ensures { dst.new ≡ each_record (λ i x. merge_in Order.LE size byte keep (get_or t.now i 0) x) record_size count dst.old }
{
    match size {
        1 => merge_le1_32(dst, byte, count, record_size, t, keep),
        2 => merge_le2_32(dst, byte, count, record_size, t, keep),
        4 => merge_le4_32(dst, byte, count, record_size, t, keep),
        _ => merge_each_32(dst, byte, count, record_size, size, Order::LE, t, keep),
    }
}

fn merge_be_32(
    dst: &mut [u8],
    byte: usize,
    count: usize,
    record_size: usize,
    size: usize,
    t: &[u32],
    keep: u32,
)
    requires { (count ≤ length t.now) × (size ≤ 4) × (byte + size ≤ record_size) × (count * record_size ≤ length dst.old) × ((i : ℕ) → i < count → get_or t.now i 0 + keep < 2 ^ 32) }
    ensures { dst.new ≡ each_record (λ i x. merge_in Order.BE size byte keep (get_or t.now i 0) x) record_size count dst.old }
{
    match size {
        2 => merge_be2_32(dst, byte, count, record_size, t, keep),
        4 => merge_be4_32(dst, byte, count, record_size, t, keep),
        _ => merge_each_32(dst, byte, count, record_size, size, Order::BE, t, keep),
    }
}

// The same, with a loop of its own for each of the usual sizes.
pub fn merge_32(
    dst: &mut [u8],
    byte: usize,
    count: usize,
    record_size: usize,
    size: usize,
    order: Order,
    t: &[u32],
    keep: u32,
)
    requires { (count ≤ length t.now) × (size ≤ 4) × (byte + size ≤ record_size) × (count * record_size ≤ length dst.old) × ((i : ℕ) → i < count → get_or t.now i 0 + keep < 2 ^ 32) }
    ensures { dst.new ≡ each_record (λ i x. merge_in order size byte keep (get_or t.now i 0) x) record_size count dst.old }
{
    match order {
        Order::LE => merge_le_32(dst, byte, count, record_size, size, t, keep),
        Order::BE => merge_be_32(dst, byte, count, record_size, size, t, keep),
    }
}

// ---- numbers of 64 bits

// So many containers of size bytes to a byte of each record, with the background's bits under keep.
fn merge_each_64(
    dst: &mut [u8],
    byte: usize,
    count: usize,
    record_size: usize,
    size: usize,
    order: Order,
    t: &[u64],
    keep: u64,
)
    requires { (count ≤ length t.now) × (size ≤ 8) × (byte + size ≤ record_size) × (count * record_size ≤ length dst.old) × ((i : ℕ) → i < count → get_or t.now i 0 + keep < 2 ^ 64) }
    ensures { dst.new ≡ each_record (λ i x. merge_in order size byte keep (get_or t.now i 0) x) record_size count dst.old }
{
    let mut start: usize = 0;
    for i in 0..count {
        let background = load(&dst[start..], ByteAt(byte), ByteAt(size), order);
        let c = t[i] + (background & keep);
        store(&mut dst[start..], ByteAt(byte), ByteAt(size), order, c);
        start += record_size;
    }
}

fn merge_le1_64(dst: &mut [u8], byte: usize, count: usize, record_size: usize, t: &[u64], keep: u64)
    requires { (count ≤ length t.now) × (byte + 1 ≤ record_size) × (count * record_size ≤ length dst.old) × ((i : ℕ) → i < count → get_or t.now i 0 + keep < 2 ^ 64) }
    ensures { dst.new ≡ each_record (λ i x. merge_in Order.LE 1 byte keep (get_or t.now i 0) x) record_size count dst.old }
{
    merge_each_64(dst, byte, count, record_size, 1, Order::LE, t, keep);
}

fn merge_le2_64(dst: &mut [u8], byte: usize, count: usize, record_size: usize, t: &[u64], keep: u64)
    requires { (count ≤ length t.now) × (byte + 2 ≤ record_size) × (count * record_size ≤ length dst.old) × ((i : ℕ) → i < count → get_or t.now i 0 + keep < 2 ^ 64) }
    ensures { dst.new ≡ each_record (λ i x. merge_in Order.LE 2 byte keep (get_or t.now i 0) x) record_size count dst.old }
{
    merge_each_64(dst, byte, count, record_size, 2, Order::LE, t, keep);
}

fn merge_le4_64(dst: &mut [u8], byte: usize, count: usize, record_size: usize, t: &[u64], keep: u64)
    requires { (count ≤ length t.now) × (byte + 4 ≤ record_size) × (count * record_size ≤ length dst.old) × ((i : ℕ) → i < count → get_or t.now i 0 + keep < 2 ^ 64) }
    ensures { dst.new ≡ each_record (λ i x. merge_in Order.LE 4 byte keep (get_or t.now i 0) x) record_size count dst.old }
{
    merge_each_64(dst, byte, count, record_size, 4, Order::LE, t, keep);
}

fn merge_le8_64(dst: &mut [u8], byte: usize, count: usize, record_size: usize, t: &[u64], keep: u64)
    requires { (count ≤ length t.now) × (byte + 8 ≤ record_size) × (count * record_size ≤ length dst.old) × ((i : ℕ) → i < count → get_or t.now i 0 + keep < 2 ^ 64) }
    ensures { dst.new ≡ each_record (λ i x. merge_in Order.LE 8 byte keep (get_or t.now i 0) x) record_size count dst.old }
{
    merge_each_64(dst, byte, count, record_size, 8, Order::LE, t, keep);
}

fn merge_be2_64(dst: &mut [u8], byte: usize, count: usize, record_size: usize, t: &[u64], keep: u64)
    requires { (count ≤ length t.now) × (byte + 2 ≤ record_size) × (count * record_size ≤ length dst.old) × ((i : ℕ) → i < count → get_or t.now i 0 + keep < 2 ^ 64) }
    ensures { dst.new ≡ each_record (λ i x. merge_in Order.BE 2 byte keep (get_or t.now i 0) x) record_size count dst.old }
{
    merge_each_64(dst, byte, count, record_size, 2, Order::BE, t, keep);
}

fn merge_be4_64(dst: &mut [u8], byte: usize, count: usize, record_size: usize, t: &[u64], keep: u64)
    requires { (count ≤ length t.now) × (byte + 4 ≤ record_size) × (count * record_size ≤ length dst.old) × ((i : ℕ) → i < count → get_or t.now i 0 + keep < 2 ^ 64) }
    ensures { dst.new ≡ each_record (λ i x. merge_in Order.BE 4 byte keep (get_or t.now i 0) x) record_size count dst.old }
{
    merge_each_64(dst, byte, count, record_size, 4, Order::BE, t, keep);
}

fn merge_be8_64(dst: &mut [u8], byte: usize, count: usize, record_size: usize, t: &[u64], keep: u64)
    requires { (count ≤ length t.now) × (byte + 8 ≤ record_size) × (count * record_size ≤ length dst.old) × ((i : ℕ) → i < count → get_or t.now i 0 + keep < 2 ^ 64) }
    ensures { dst.new ≡ each_record (λ i x. merge_in Order.BE 8 byte keep (get_or t.now i 0) x) record_size count dst.old }
{
    merge_each_64(dst, byte, count, record_size, 8, Order::BE, t, keep);
}

fn merge_le_64(
    dst: &mut [u8],
    byte: usize,
    count: usize,
    record_size: usize,
    size: usize,
    t: &[u64],
    keep: u64,
)
    requires { (count ≤ length t.now) × (size ≤ 8) × (byte + size ≤ record_size) × (count * record_size ≤ length dst.old) × ((i : ℕ) → i < count → get_or t.now i 0 + keep < 2 ^ 64) }
    ensures { dst.new ≡ each_record (λ i x. merge_in Order.LE size byte keep (get_or t.now i 0) x) record_size count dst.old }
{
    match size {
        1 => merge_le1_64(dst, byte, count, record_size, t, keep),
        2 => merge_le2_64(dst, byte, count, record_size, t, keep),
        4 => merge_le4_64(dst, byte, count, record_size, t, keep),
        8 => merge_le8_64(dst, byte, count, record_size, t, keep),
        _ => merge_each_64(dst, byte, count, record_size, size, Order::LE, t, keep),
    }
}

fn merge_be_64(
    dst: &mut [u8],
    byte: usize,
    count: usize,
    record_size: usize,
    size: usize,
    t: &[u64],
    keep: u64,
)
    requires { (count ≤ length t.now) × (size ≤ 8) × (byte + size ≤ record_size) × (count * record_size ≤ length dst.old) × ((i : ℕ) → i < count → get_or t.now i 0 + keep < 2 ^ 64) }
    ensures { dst.new ≡ each_record (λ i x. merge_in Order.BE size byte keep (get_or t.now i 0) x) record_size count dst.old }
{
    match size {
        2 => merge_be2_64(dst, byte, count, record_size, t, keep),
        4 => merge_be4_64(dst, byte, count, record_size, t, keep),
        8 => merge_be8_64(dst, byte, count, record_size, t, keep),
        _ => merge_each_64(dst, byte, count, record_size, size, Order::BE, t, keep),
    }
}

// The same, with a loop of its own for each of the usual sizes.
pub fn merge_64(
    dst: &mut [u8],
    byte: usize,
    count: usize,
    record_size: usize,
    size: usize,
    order: Order,
    t: &[u64],
    keep: u64,
)
    requires { (count ≤ length t.now) × (size ≤ 8) × (byte + size ≤ record_size) × (count * record_size ≤ length dst.old) × ((i : ℕ) → i < count → get_or t.now i 0 + keep < 2 ^ 64) }
    ensures { dst.new ≡ each_record (λ i x. merge_in order size byte keep (get_or t.now i 0) x) record_size count dst.old }
{
    match order {
        Order::LE => merge_le_64(dst, byte, count, record_size, size, t, keep),
        Order::BE => merge_be_64(dst, byte, count, record_size, size, t, keep),
    }
}
