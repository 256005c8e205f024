// Pieces of records that stay as they are: the same bytes of each record of a block, moved without a look at the numbers in them.
#![tactic(auto)]

ghost use Rattle.std.specs.Prelude.{◌≡◌, List, ℕ, ◌+◌, ◌*◌, ◌≤◌, ◌<◌, length, take, drop};
ghost use Rattle.std.proofs.Math.Seq.{paste};
ghost use Rattle.plans.specs.PlanWords.{entries_from, Ready};
ghost use Rattle.blocks.specs.Blocks.{each_of, raised_over};
ghost use Rattle.piece_moves.specs.Pieces.{each_piece};

use bits::{ByteAt, Order};
use loading::load;
use plan_words::entry;
use same_bytes::run_of;
use storing::store;

// The most bytes that are moved at once.
const LONGEST: usize = 16;

// So many bytes at a byte of src go to a byte of dst, as one number.
fn move_number(src: &[u8], from: usize, dst: &mut [u8], to: usize, bytes: usize)
    requires { (bytes ≤ 8) × (from + bytes ≤ length src.now) × (to + bytes ≤ length dst.old) }
    ensures { dst.new ≡ paste dst.old to (take bytes (drop from src.now)) bytes }
{
    let x = load(src, ByteAt(from), ByteAt(bytes), Order::LE);
    store(dst, ByteAt(to), ByteAt(bytes), Order::LE, x);
}

// As one number or two.
fn move_bytes(src: &[u8], from: usize, dst: &mut [u8], to: usize, bytes: usize)
    requires { (bytes ≤ 16) × (from + bytes ≤ length src.now) × (to + bytes ≤ length dst.old) }
    ensures { dst.new ≡ paste dst.old to (take bytes (drop from src.now)) bytes }
{
    if bytes <= 8 {
        move_number(src, from, dst, to, bytes);
        return;
    }
    move_number(src, from, dst, to, 8);
    move_number(src, from + 8, dst, to + 8, bytes - 8);
}

// In each of so many records. Where a call says the bytes by a constant, the compiler makes one move of them.
fn move_each(
    src: &[u8],
    dst: &mut [u8],
    count: usize,
    source_size: usize,
    destination_size: usize,
    destination_byte: usize,
    source_byte: usize,
    bytes: usize,
)
    requires { (bytes ≤ 16) × (source_byte + bytes ≤ source_size) × (destination_byte + bytes ≤ destination_size) × (count * source_size ≤ length src.now) × (count * destination_size ≤ length dst.old) }
    ensures { dst.new ≡ each_piece bytes destination_byte source_byte source_size destination_size src.now count dst.old }
{
    for i in 0..count {
        move_bytes(
            &src[i * source_size..],
            source_byte,
            &mut dst[i * destination_size..],
            destination_byte,
            bytes,
        );
    }
}

fn move_column(
    src: &[u8],
    dst: &mut [u8],
    count: usize,
    source_size: usize,
    destination_size: usize,
    destination_byte: usize,
    source_byte: usize,
    bytes: usize,
)
    requires { (bytes ≤ 16) × (source_byte + bytes ≤ source_size) × (destination_byte + bytes ≤ destination_size) × (count * source_size ≤ length src.now) × (count * destination_size ≤ length dst.old) }
    ensures { dst.new ≡ each_piece bytes destination_byte source_byte source_size destination_size src.now count dst.old }
{
    if bytes == 16 {
        move_each(
            src,
            dst,
            count,
            source_size,
            destination_size,
            destination_byte,
            source_byte,
            16,
        );
        return;
    }
    if bytes == 8 {
        move_each(
            src,
            dst,
            count,
            source_size,
            destination_size,
            destination_byte,
            source_byte,
            8,
        );
        return;
    }
    if bytes == 4 {
        move_each(
            src,
            dst,
            count,
            source_size,
            destination_size,
            destination_byte,
            source_byte,
            4,
        );
        return;
    }
    if bytes == 2 {
        move_each(
            src,
            dst,
            count,
            source_size,
            destination_size,
            destination_byte,
            source_byte,
            2,
        );
        return;
    }
    move_each(
        src,
        dst,
        count,
        source_size,
        destination_size,
        destination_byte,
        source_byte,
        bytes,
    );
}

// How many of the bytes that are left go next: a power of two.
fn next_bytes(left: usize) -> usize
    requires { 1 ≤ left }
    ensures { (1 ≤ result) × (result ≤ left) × (result ≤ 16) }
{
    if LONGEST <= left {
        return LONGEST;
    }
    if 8 <= left {
        return 8;
    }
    if 4 <= left {
        return 4;
    }
    if 2 <= left {
        return 2;
    }
    1
}

// The bytes at the source byte of so many source records to the destination byte of as many destination records.
pub fn piece_column(
    src: &[u8],
    dst: &mut [u8],
    count: usize,
    source_size: usize,
    destination_size: usize,
    destination_byte: usize,
    source_byte: usize,
    bytes: usize,
)
    requires { (source_byte + bytes ≤ source_size) × (destination_byte + bytes ≤ destination_size) × (count * source_size ≤ length src.now) × (count * destination_size ≤ length dst.old) }
    ensures { dst.new ≡ each_piece bytes destination_byte source_byte source_size destination_size src.now count dst.old }
{
    let mut k: usize = 0;
    // A piece goes in moves of 16, 8, 4.. bytes: no range has these steps.
    while k < bytes {
        let n = next_bytes(bytes - k);
        move_column(
            src,
            dst,
            count,
            source_size,
            destination_size,
            destination_byte + k,
            source_byte + k,
            n,
        );
        k += n;
    }
}

// The entries from i on whose leaves stay as they are and adjoin, in so many records; how many entries that are is returned.
pub fn block_step(
    src: &[u8],
    dst: &mut [u8],
    count: usize,
    source_size: usize,
    destination_size: usize,
    plan: &[u32],
    i: usize,
    entries: usize,
    source_half: &[u32],
    destination_half: &[u32],
) -> usize
    requires { ((words : List ℕ) × Ready source_size destination_size plan.now entries source_half.now destination_half.now words) × (i < entries) × (count * source_size ≤ length src.now) × (count * destination_size ≤ length dst.old) }
    ensures { (i + result ≤ entries) × ((words : List ℕ) (p : Ready source_size destination_size plan.now entries source_half.now destination_half.now words) → (dst.new ≡ each_of (entries_from plan.now source_half.now p.source_text destination_half.now p.destination_text i result) source_size destination_size src.now count dst.old) × (raised_over (entries_from plan.now source_half.now p.source_text destination_half.now p.destination_text i result) source_size src.now count ≡ 0)) }
{
    let run = run_of(plan, i, entries, source_half, destination_half);
    if run.entries == 0 {
        return 0;
    }
    let e = entry(plan, i);
    piece_column(
        src,
        dst,
        count,
        source_size,
        destination_size,
        e.to,
        e.from,
        run.bytes,
    );
    run.entries
}
