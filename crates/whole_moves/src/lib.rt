// The same leaf of a block of records between two numbers of whole bytes that is always in range: moved from the source's bytes to the destination's in one loop, without an array between.
#![tactic(auto)]

ghost use Rattle.std.specs.Prelude.{◌≡◌, ◌+◌, ◌*◌, ◌≤◌, length};
ghost use Rattle.blocks.specs.Blocks.{each_made};
ghost use Rattle.whole_moves.specs.Whole.{moved_by, Whole};

use bits::shift::low_bits;
use bits::{ByteAt, bits_of};
use column_words::Words;
use loading::load;
use std::num::{wrapping_add_u64, wrapping_sub_u64};
use storing::store;

// The number c of n bytes as one of m bytes.
fn moved(c: u64, half: u64, n: usize, m: usize) -> u64
    requires { (n ≤ 8) × (m ≤ 8) }
    ensures { result ≡ moved_by n m half c }
{
    let source_bits = bits_of(ByteAt(n));
    let bits = bits_of(ByteAt(m));
    let b = low_bits(wrapping_add_u64(c, half), source_bits.0);
    low_bits(wrapping_sub_u64(b, half), bits.0)
}

// The leaf at the source byte of so many source records to the destination byte of as many destination records. Where the sizes n and m are constants the compiler moves each number at
// once, and makes a loop for each pair of orders.
pub fn move_each(
    src: &[u8],
    dst: &mut [u8],
    count: usize,
    source_size: usize,
    destination_size: usize,
    destination_byte: usize,
    source_byte: usize,
    w: Words,
    n: usize,
    m: usize,
)
    requires { (n ≤ 8) × (m ≤ 8) × Whole w × (w.source_size ≡ n) × (w.size ≡ m) × (source_byte + w.source_size ≤ source_size) × (destination_byte + w.size ≤ destination_size) × (count * source_size ≤ length src.now) × (count * destination_size ≤ length dst.old) }
    ensures { dst.new ≡ each_made w destination_byte source_byte source_size destination_size src.now count dst.old }
{
    let from = w.source_order;
    let to = w.order;
    let half = w.half;
    let mut x: usize = 0;
    let mut y: usize = 0;
    for i in 0..count {
        let c = load(&src[x..], ByteAt(source_byte), ByteAt(n), from);
        store(
            &mut dst[y..],
            ByteAt(destination_byte),
            ByteAt(m),
            to,
            moved(c, half, n, m),
        );
        x += source_size;
        y += destination_size;
    }
}

// The usual sizes.
pub fn move_1_1(
    src: &[u8],
    dst: &mut [u8],
    count: usize,
    source_size: usize,
    destination_size: usize,
    destination_byte: usize,
    source_byte: usize,
    w: Words,
)
    requires { Whole w × (w.source_size ≡ 1) × (w.size ≡ 1) × (source_byte + w.source_size ≤ source_size) × (destination_byte + w.size ≤ destination_size) × (count * source_size ≤ length src.now) × (count * destination_size ≤ length dst.old) }
    ensures { dst.new ≡ each_made w destination_byte source_byte source_size destination_size src.now count dst.old }
{
    move_each(
        src,
        dst,
        count,
        source_size,
        destination_size,
        destination_byte,
        source_byte,
        w,
        1,
        1,
    );
}

pub fn move_1_2(
    src: &[u8],
    dst: &mut [u8],
    count: usize,
    source_size: usize,
    destination_size: usize,
    destination_byte: usize,
    source_byte: usize,
    w: Words,
)
    requires { Whole w × (w.source_size ≡ 1) × (w.size ≡ 2) × (source_byte + w.source_size ≤ source_size) × (destination_byte + w.size ≤ destination_size) × (count * source_size ≤ length src.now) × (count * destination_size ≤ length dst.old) }
    ensures { dst.new ≡ each_made w destination_byte source_byte source_size destination_size src.now count dst.old }
{
    move_each(
        src,
        dst,
        count,
        source_size,
        destination_size,
        destination_byte,
        source_byte,
        w,
        1,
        2,
    );
}

pub fn move_1_4(
    src: &[u8],
    dst: &mut [u8],
    count: usize,
    source_size: usize,
    destination_size: usize,
    destination_byte: usize,
    source_byte: usize,
    w: Words,
)
    requires { Whole w × (w.source_size ≡ 1) × (w.size ≡ 4) × (source_byte + w.source_size ≤ source_size) × (destination_byte + w.size ≤ destination_size) × (count * source_size ≤ length src.now) × (count * destination_size ≤ length dst.old) }
    ensures { dst.new ≡ each_made w destination_byte source_byte source_size destination_size src.now count dst.old }
{
    move_each(
        src,
        dst,
        count,
        source_size,
        destination_size,
        destination_byte,
        source_byte,
        w,
        1,
        4,
    );
}

pub fn move_1_8(
    src: &[u8],
    dst: &mut [u8],
    count: usize,
    source_size: usize,
    destination_size: usize,
    destination_byte: usize,
    source_byte: usize,
    w: Words,
)
    requires { Whole w × (w.source_size ≡ 1) × (w.size ≡ 8) × (source_byte + w.source_size ≤ source_size) × (destination_byte + w.size ≤ destination_size) × (count * source_size ≤ length src.now) × (count * destination_size ≤ length dst.old) }
    ensures { dst.new ≡ each_made w destination_byte source_byte source_size destination_size src.now count dst.old }
{
    move_each(
        src,
        dst,
        count,
        source_size,
        destination_size,
        destination_byte,
        source_byte,
        w,
        1,
        8,
    );
}

pub fn move_2_2(
    src: &[u8],
    dst: &mut [u8],
    count: usize,
    source_size: usize,
    destination_size: usize,
    destination_byte: usize,
    source_byte: usize,
    w: Words,
)
    requires { Whole w × (w.source_size ≡ 2) × (w.size ≡ 2) × (source_byte + w.source_size ≤ source_size) × (destination_byte + w.size ≤ destination_size) × (count * source_size ≤ length src.now) × (count * destination_size ≤ length dst.old) }
    ensures { dst.new ≡ each_made w destination_byte source_byte source_size destination_size src.now count dst.old }
{
    move_each(
        src,
        dst,
        count,
        source_size,
        destination_size,
        destination_byte,
        source_byte,
        w,
        2,
        2,
    );
}

pub fn move_2_4(
    src: &[u8],
    dst: &mut [u8],
    count: usize,
    source_size: usize,
    destination_size: usize,
    destination_byte: usize,
    source_byte: usize,
    w: Words,
)
    requires { Whole w × (w.source_size ≡ 2) × (w.size ≡ 4) × (source_byte + w.source_size ≤ source_size) × (destination_byte + w.size ≤ destination_size) × (count * source_size ≤ length src.now) × (count * destination_size ≤ length dst.old) }
    ensures { dst.new ≡ each_made w destination_byte source_byte source_size destination_size src.now count dst.old }
{
    move_each(
        src,
        dst,
        count,
        source_size,
        destination_size,
        destination_byte,
        source_byte,
        w,
        2,
        4,
    );
}

pub fn move_2_8(
    src: &[u8],
    dst: &mut [u8],
    count: usize,
    source_size: usize,
    destination_size: usize,
    destination_byte: usize,
    source_byte: usize,
    w: Words,
)
    requires { Whole w × (w.source_size ≡ 2) × (w.size ≡ 8) × (source_byte + w.source_size ≤ source_size) × (destination_byte + w.size ≤ destination_size) × (count * source_size ≤ length src.now) × (count * destination_size ≤ length dst.old) }
    ensures { dst.new ≡ each_made w destination_byte source_byte source_size destination_size src.now count dst.old }
{
    move_each(
        src,
        dst,
        count,
        source_size,
        destination_size,
        destination_byte,
        source_byte,
        w,
        2,
        8,
    );
}

pub fn move_4_4(
    src: &[u8],
    dst: &mut [u8],
    count: usize,
    source_size: usize,
    destination_size: usize,
    destination_byte: usize,
    source_byte: usize,
    w: Words,
)
    requires { Whole w × (w.source_size ≡ 4) × (w.size ≡ 4) × (source_byte + w.source_size ≤ source_size) × (destination_byte + w.size ≤ destination_size) × (count * source_size ≤ length src.now) × (count * destination_size ≤ length dst.old) }
    ensures { dst.new ≡ each_made w destination_byte source_byte source_size destination_size src.now count dst.old }
{
    move_each(
        src,
        dst,
        count,
        source_size,
        destination_size,
        destination_byte,
        source_byte,
        w,
        4,
        4,
    );
}

pub fn move_4_8(
    src: &[u8],
    dst: &mut [u8],
    count: usize,
    source_size: usize,
    destination_size: usize,
    destination_byte: usize,
    source_byte: usize,
    w: Words,
)
    requires { Whole w × (w.source_size ≡ 4) × (w.size ≡ 8) × (source_byte + w.source_size ≤ source_size) × (destination_byte + w.size ≤ destination_size) × (count * source_size ≤ length src.now) × (count * destination_size ≤ length dst.old) }
    ensures { dst.new ≡ each_made w destination_byte source_byte source_size destination_size src.now count dst.old }
{
    move_each(
        src,
        dst,
        count,
        source_size,
        destination_size,
        destination_byte,
        source_byte,
        w,
        4,
        8,
    );
}

pub fn move_8_8(
    src: &[u8],
    dst: &mut [u8],
    count: usize,
    source_size: usize,
    destination_size: usize,
    destination_byte: usize,
    source_byte: usize,
    w: Words,
)
    requires { Whole w × (w.source_size ≡ 8) × (w.size ≡ 8) × (source_byte + w.source_size ≤ source_size) × (destination_byte + w.size ≤ destination_size) × (count * source_size ≤ length src.now) × (count * destination_size ≤ length dst.old) }
    ensures { dst.new ≡ each_made w destination_byte source_byte source_size destination_size src.now count dst.old }
{
    move_each(
        src,
        dst,
        count,
        source_size,
        destination_size,
        destination_byte,
        source_byte,
        w,
        8,
        8,
    );
}

// Records that lie without gaps on both sides: the distances are constants too, for which the compiler makes vectors.
pub fn move_dense_1_1(src: &[u8], dst: &mut [u8], count: usize, w: Words)
    requires { Whole w × (w.source_size ≡ 1) × (w.size ≡ 1) × (count * 1 ≤ length src.now) × (count * 1 ≤ length dst.old) }
    ensures { dst.new ≡ each_made w 0 0 1 1 src.now count dst.old }
{
    move_each(src, dst, count, 1, 1, 0, 0, w, 1, 1);
}

pub fn move_dense_1_2(src: &[u8], dst: &mut [u8], count: usize, w: Words)
    requires { Whole w × (w.source_size ≡ 1) × (w.size ≡ 2) × (count * 1 ≤ length src.now) × (count * 2 ≤ length dst.old) }
    ensures { dst.new ≡ each_made w 0 0 1 2 src.now count dst.old }
{
    move_each(src, dst, count, 1, 2, 0, 0, w, 1, 2);
}

pub fn move_dense_1_4(src: &[u8], dst: &mut [u8], count: usize, w: Words)
    requires { Whole w × (w.source_size ≡ 1) × (w.size ≡ 4) × (count * 1 ≤ length src.now) × (count * 4 ≤ length dst.old) }
    ensures { dst.new ≡ each_made w 0 0 1 4 src.now count dst.old }
{
    move_each(src, dst, count, 1, 4, 0, 0, w, 1, 4);
}

pub fn move_dense_1_8(src: &[u8], dst: &mut [u8], count: usize, w: Words)
    requires { Whole w × (w.source_size ≡ 1) × (w.size ≡ 8) × (count * 1 ≤ length src.now) × (count * 8 ≤ length dst.old) }
    ensures { dst.new ≡ each_made w 0 0 1 8 src.now count dst.old }
{
    move_each(src, dst, count, 1, 8, 0, 0, w, 1, 8);
}

pub fn move_dense_2_2(src: &[u8], dst: &mut [u8], count: usize, w: Words)
    requires { Whole w × (w.source_size ≡ 2) × (w.size ≡ 2) × (count * 2 ≤ length src.now) × (count * 2 ≤ length dst.old) }
    ensures { dst.new ≡ each_made w 0 0 2 2 src.now count dst.old }
{
    move_each(src, dst, count, 2, 2, 0, 0, w, 2, 2);
}

pub fn move_dense_2_4(src: &[u8], dst: &mut [u8], count: usize, w: Words)
    requires { Whole w × (w.source_size ≡ 2) × (w.size ≡ 4) × (count * 2 ≤ length src.now) × (count * 4 ≤ length dst.old) }
    ensures { dst.new ≡ each_made w 0 0 2 4 src.now count dst.old }
{
    move_each(src, dst, count, 2, 4, 0, 0, w, 2, 4);
}

pub fn move_dense_2_8(src: &[u8], dst: &mut [u8], count: usize, w: Words)
    requires { Whole w × (w.source_size ≡ 2) × (w.size ≡ 8) × (count * 2 ≤ length src.now) × (count * 8 ≤ length dst.old) }
    ensures { dst.new ≡ each_made w 0 0 2 8 src.now count dst.old }
{
    move_each(src, dst, count, 2, 8, 0, 0, w, 2, 8);
}

pub fn move_dense_4_4(src: &[u8], dst: &mut [u8], count: usize, w: Words)
    requires { Whole w × (w.source_size ≡ 4) × (w.size ≡ 4) × (count * 4 ≤ length src.now) × (count * 4 ≤ length dst.old) }
    ensures { dst.new ≡ each_made w 0 0 4 4 src.now count dst.old }
{
    move_each(src, dst, count, 4, 4, 0, 0, w, 4, 4);
}

pub fn move_dense_4_8(src: &[u8], dst: &mut [u8], count: usize, w: Words)
    requires { Whole w × (w.source_size ≡ 4) × (w.size ≡ 8) × (count * 4 ≤ length src.now) × (count * 8 ≤ length dst.old) }
    ensures { dst.new ≡ each_made w 0 0 4 8 src.now count dst.old }
{
    move_each(src, dst, count, 4, 8, 0, 0, w, 4, 8);
}

// A function of its own in the compiled code: among all the loops of a block, this one's places would lie on the stack, and be read anew for each number.
#[inline(never)]
pub fn move_dense_8_8(src: &[u8], dst: &mut [u8], count: usize, w: Words)
    requires { Whole w × (w.source_size ≡ 8) × (w.size ≡ 8) × (count * 8 ≤ length src.now) × (count * 8 ≤ length dst.old) }
    ensures { dst.new ≡ each_made w 0 0 8 8 src.now count dst.old }
{
    move_each(src, dst, count, 8, 8, 0, 0, w, 8, 8);
}
