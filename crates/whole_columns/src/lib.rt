// Which pairs of layouts are moved at once, and their loops by the sizes of the two containers.
#![tactic(auto)]

ghost use Rattle.std.specs.Prelude.{◌≡◌, true, ◌+◌, ◌-◌, ◌*◌, ◌^◌, ◌≤◌, length};
ghost use Rattle.column_words.specs.Words.{Fits};
ghost use Rattle.blocks.specs.Blocks.{each_made};
ghost use Rattle.whole_moves.specs.Whole.{Whole};

use bits::shift::ones;
use bits::{ByteAt, bits_of};
use column_words::Words;
use whole_moves::{
    move_1_1, move_1_2, move_1_4, move_1_8, move_2_2, move_2_4, move_2_8, move_4_4, move_4_8,
    move_8_8, move_dense_1_1, move_dense_1_2, move_dense_1_4, move_dense_1_8, move_dense_2_2,
    move_dense_2_4, move_dense_2_8, move_dense_4_4, move_dense_4_8, move_dense_8_8, move_each,
};

// Whether a number of the words' source is always in range.
fn is_in_range(w: Words) -> bool
    ensures { result ≡ true → (w.low ≡ 0) × (w.high ≡ w.mask) }
{
    if w.low == 0 {
        return w.high == w.mask;
    }
    false
}

// Whether the number stands at the lowest bit of both containers.
fn is_lowest(w: Words) -> bool
    ensures { result ≡ true → (w.shift ≡ 0) × (w.up ≡ 0) }
{
    if w.shift == 0 {
        return w.up == 0;
    }
    false
}

// Whether the destination has no pad that is one, and none that stays.
fn is_without_pads(w: Words) -> bool
    ensures { result ≡ true → (w.ones ≡ 0) × (w.keep ≡ 0) }
{
    if w.ones == 0 {
        return w.keep == 0;
    }
    false
}

// Whether a mask has all bits of so many bytes.
fn has_all_bits(mask: u64, size: usize) -> bool
    requires { size ≤ 8 }
    ensures { result ≡ true → mask ≡ 2 ^ (8 * size) - 1 }
{
    let k = bits_of(ByteAt(size));
    mask == ones(k.0)
}

fn is_all_bits(w: Words) -> bool
    requires { Fits 64 w }
    ensures { result ≡ true → (w.mask ≡ 2 ^ (8 * w.source_size) - 1) × (w.into ≡ 2 ^ (8 * w.size) - 1) }
{
    if has_all_bits(w.mask, w.source_size) {
        return has_all_bits(w.into, w.size);
    }
    false
}

pub fn is_whole(w: Words) -> bool
    requires { Fits 64 w }
    ensures { result ≡ true → Whole w }
{
    if is_in_range(w) {
        if is_lowest(w) {
            if is_without_pads(w) {
                return is_all_bits(w);
            }
        }
    }
    false
}

// Two sizes of at most eight bytes as one number.
fn sizes_of(w: Words) -> usize
    requires { Fits 64 w }
    ensures { result ≡ 16 * w.source_size + w.size }
{
    16 * w.source_size + w.size
}

fn move_dense(src: &[u8], dst: &mut [u8], count: usize, w: Words)
    requires { Fits 64 w × Whole w × (count * w.source_size ≤ length src.now) × (count * w.size ≤ length dst.old) }
    ensures { dst.new ≡ each_made w 0 0 w.source_size w.size src.now count dst.old }
{
    match sizes_of(w) {
        17 => move_dense_1_1(src, dst, count, w),
        18 => move_dense_1_2(src, dst, count, w),
        20 => move_dense_1_4(src, dst, count, w),
        24 => move_dense_1_8(src, dst, count, w),
        34 => move_dense_2_2(src, dst, count, w),
        36 => move_dense_2_4(src, dst, count, w),
        40 => move_dense_2_8(src, dst, count, w),
        68 => move_dense_4_4(src, dst, count, w),
        72 => move_dense_4_8(src, dst, count, w),
        136 => move_dense_8_8(src, dst, count, w),
        _ => move_each(
            src,
            dst,
            count,
            w.source_size,
            w.size,
            0,
            0,
            w,
            w.source_size,
            w.size,
        ),
    }
}

fn move_strided(
    src: &[u8],
    dst: &mut [u8],
    count: usize,
    source_size: usize,
    destination_size: usize,
    destination_byte: usize,
    source_byte: usize,
    w: Words,
)
    requires { Fits 64 w × Whole w × (source_byte + w.source_size ≤ source_size) × (destination_byte + w.size ≤ destination_size) × (count * source_size ≤ length src.now) × (count * destination_size ≤ length dst.old) }
    ensures { dst.new ≡ each_made w destination_byte source_byte source_size destination_size src.now count dst.old }
{
    match sizes_of(w) {
        17 => move_1_1(
            src,
            dst,
            count,
            source_size,
            destination_size,
            destination_byte,
            source_byte,
            w,
        ),
        18 => move_1_2(
            src,
            dst,
            count,
            source_size,
            destination_size,
            destination_byte,
            source_byte,
            w,
        ),
        20 => move_1_4(
            src,
            dst,
            count,
            source_size,
            destination_size,
            destination_byte,
            source_byte,
            w,
        ),
        24 => move_1_8(
            src,
            dst,
            count,
            source_size,
            destination_size,
            destination_byte,
            source_byte,
            w,
        ),
        34 => move_2_2(
            src,
            dst,
            count,
            source_size,
            destination_size,
            destination_byte,
            source_byte,
            w,
        ),
        36 => move_2_4(
            src,
            dst,
            count,
            source_size,
            destination_size,
            destination_byte,
            source_byte,
            w,
        ),
        40 => move_2_8(
            src,
            dst,
            count,
            source_size,
            destination_size,
            destination_byte,
            source_byte,
            w,
        ),
        68 => move_4_4(
            src,
            dst,
            count,
            source_size,
            destination_size,
            destination_byte,
            source_byte,
            w,
        ),
        72 => move_4_8(
            src,
            dst,
            count,
            source_size,
            destination_size,
            destination_byte,
            source_byte,
            w,
        ),
        136 => move_8_8(
            src,
            dst,
            count,
            source_size,
            destination_size,
            destination_byte,
            source_byte,
            w,
        ),
        _ => move_each(
            src,
            dst,
            count,
            source_size,
            destination_size,
            destination_byte,
            source_byte,
            w,
            w.source_size,
            w.size,
        ),
    }
}

// The same, with a loop of its own for the usual sizes, and where records lie without gaps.
pub fn move_column(
    src: &[u8],
    dst: &mut [u8],
    count: usize,
    source_size: usize,
    destination_size: usize,
    destination_byte: usize,
    source_byte: usize,
    w: Words,
)
    requires { Fits 64 w × Whole w × (source_byte + w.source_size ≤ source_size) × (destination_byte + w.size ≤ destination_size) × (count * source_size ≤ length src.now) × (count * destination_size ≤ length dst.old) }
    ensures { dst.new ≡ each_made w destination_byte source_byte source_size destination_size src.now count dst.old }
{
    if source_size == w.source_size {
        if destination_size == w.size {
            move_dense(src, dst, count, w);
            return;
        }
    }
    move_strided(
        src,
        dst,
        count,
        source_size,
        destination_size,
        destination_byte,
        source_byte,
        w,
    );
}
