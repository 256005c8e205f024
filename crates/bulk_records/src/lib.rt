// Many records at once: those that stay as they are in one piece, others in blocks.
#![tactic(auto)]

ghost use Rattle.std.specs.Prelude.{◌-◌, ◌*◌, ◌≤◌, length};
ghost use Rattle.plans.specs.PlanWords.{Job};
ghost use Rattle.loops.specs.Steps.{Done, Up, Down};

use block_sizes::Progress;
use copy_blocks::copy_blocks;
use loops::bytes::copy_bytes;
use place_blocks::{blocks_down, blocks_up};
use whole_copies::is_whole_copy;

// Converts records as copy_records does, and returns how many, with their exceptions; the rest is left to it.
pub fn copy_bulk(
    src: &[u8],
    dst: &mut [u8],
    count: usize,
    source_size: usize,
    destination_size: usize,
    plan: &[u32],
    entries: usize,
    source_half: &[u32],
    destination_half: &[u32],
    words: &[u32],
) -> Progress
    requires { Job source_size destination_size plan.now entries source_half.now destination_half.now words.now × (count ≤ 65536) × (count * source_size ≤ length src.now) × (count * destination_size ≤ length dst.old) }
    ensures { (result.records ≤ count) × ((j : Job source_size destination_size plan.now entries source_half.now destination_half.now words.now) → Done j.source j.destination destination_size count src.now dst.old result.records dst.new result.raised) }
{
    if is_whole_copy(
        plan,
        entries,
        source_size,
        destination_size,
        source_half,
        destination_half,
    ) {
        copy_bytes(dst, src, count * source_size);
        return Progress {
            records: count,
            raised: 0,
        };
    }
    copy_blocks(
        src,
        dst,
        count,
        source_size,
        destination_size,
        plan,
        entries,
        source_half,
        destination_half,
        words,
    )
}

// Converts records as replace_up does, and returns how many, with their exceptions; the rest is left to it.
pub fn bulk_up(
    buf: &mut [u8],
    background: &[u8],
    staging: &mut [u8],
    count: usize,
    source_size: usize,
    destination_size: usize,
    plan: &[u32],
    entries: usize,
    source_half: &[u32],
    destination_half: &[u32],
    words: &[u32],
) -> Progress
    requires { Job source_size destination_size plan.now entries source_half.now destination_half.now words.now × (count ≤ 65536) × (destination_size ≤ source_size) × (4096 ≤ length staging.old) × (count * source_size ≤ length buf.old) × (count * destination_size ≤ length background.now) }
    ensures { (result.records ≤ count) × ((j : Job source_size destination_size plan.now entries source_half.now destination_half.now words.now) → Up j.source j.destination source_size destination_size count buf.old background.now result.records buf.new result.raised) }
{
    if is_whole_copy(
        plan,
        entries,
        source_size,
        destination_size,
        source_half,
        destination_half,
    ) {
        return Progress {
            records: count,
            raised: 0,
        };
    }
    blocks_up(
        buf,
        background,
        staging,
        count,
        source_size,
        destination_size,
        plan,
        entries,
        source_half,
        destination_half,
        words,
    )
}

// Converts records as replace_down does, and returns how many, with their exceptions; the rest is left to it.
pub fn bulk_down(
    buf: &mut [u8],
    background: &[u8],
    staging: &mut [u8],
    count: usize,
    source_size: usize,
    destination_size: usize,
    plan: &[u32],
    entries: usize,
    source_half: &[u32],
    destination_half: &[u32],
    words: &[u32],
) -> Progress
    requires { Job source_size destination_size plan.now entries source_half.now destination_half.now words.now × (count ≤ 65536) × (source_size ≤ destination_size) × (4096 ≤ length staging.old) × (count * destination_size ≤ length buf.old) × (count * destination_size ≤ length background.now) }
    ensures { (result.records ≤ count) × ((j : Job source_size destination_size plan.now entries source_half.now destination_half.now words.now) → Down j.source j.destination source_size destination_size count buf.old background.now (count - result.records) buf.new result.raised) }
{
    if is_whole_copy(
        plan,
        entries,
        source_size,
        destination_size,
        source_half,
        destination_half,
    ) {
        return Progress {
            records: count,
            raised: 0,
        };
    }
    blocks_down(
        buf,
        background,
        staging,
        count,
        source_size,
        destination_size,
        plan,
        entries,
        source_half,
        destination_half,
        words,
    )
}
