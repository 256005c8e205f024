// In place: one buffer, and a separate background.
#![tactic(auto)]

ghost use Rattle.std.specs.Prelude.{◌≡◌, ◌*◌, ◌≤◌, length, take, drop};
ghost use Rattle.records.specs.Records.{readings, exceptions, in_place_result};
ghost use Rattle.plans.specs.PlanWords.{Job};

use bulk_records::{bulk_down, bulk_up};
use loops::bytes::clear_bytes;
use staged_record::replace_record;

// From the first record up: no result record reaches a later source record where they do not grow.
fn replace_up(
    buf: &mut [u8],
    background: &[u8],
    count: usize,
    source_size: usize,
    destination_size: usize,
    plan: &[u32],
    entries: usize,
    source_half: &[u32],
    destination_half: &[u32],
    words: &[u32],
) -> u64
    requires { Job source_size destination_size plan.now entries source_half.now destination_half.now words.now × (count ≤ 65536) × (destination_size ≤ source_size) × (count * source_size ≤ length buf.old) × (count * destination_size ≤ length background.now) }
    ensures { (j : Job source_size destination_size plan.now entries source_half.now destination_half.now words.now) → (take (count * destination_size) buf.new ≡ take (count * destination_size) (in_place_result j.source j.destination count buf.old background.now)) × (drop (count * source_size) buf.new ≡ drop (count * source_size) buf.old) × (result ≡ exceptions j.source j.destination count (readings j.source j.destination buf.old)) }
{
    let mut staging = [0u8; 4096];
    let done = bulk_up(
        buf,
        background,
        &mut staging,
        count,
        source_size,
        destination_size,
        plan,
        entries,
        source_half,
        destination_half,
        words,
    );
    let mut total = done.raised;
    for i in done.records..count {
        total += replace_record(
            buf,
            background,
            &mut staging,
            i,
            source_size,
            destination_size,
            plan,
            entries,
            source_half,
            destination_half,
            words,
        );
    }
    total
}

// From the last record down: no result record reaches an earlier source record where they do not shrink.
fn replace_down(
    buf: &mut [u8],
    background: &[u8],
    count: usize,
    source_size: usize,
    destination_size: usize,
    plan: &[u32],
    entries: usize,
    source_half: &[u32],
    destination_half: &[u32],
    words: &[u32],
) -> u64
    requires { Job source_size destination_size plan.now entries source_half.now destination_half.now words.now × (count ≤ 65536) × (source_size ≤ destination_size) × (count * destination_size ≤ length buf.old) × (count * destination_size ≤ length background.now) }
    ensures { (j : Job source_size destination_size plan.now entries source_half.now destination_half.now words.now) → (buf.new ≡ in_place_result j.source j.destination count buf.old background.now) × (result ≡ exceptions j.source j.destination count (readings j.source j.destination buf.old)) }
{
    let mut staging = [0u8; 4096];
    let done = bulk_down(
        buf,
        background,
        &mut staging,
        count,
        source_size,
        destination_size,
        plan,
        entries,
        source_half,
        destination_half,
        words,
    );
    let mut total = done.raised;
    let left = count - done.records;
    for i in (0..left).rev() {
        total += replace_record(
            buf,
            background,
            &mut staging,
            i,
            source_size,
            destination_size,
            plan,
            entries,
            source_half,
            destination_half,
            words,
        );
    }
    total
}

// Converts so many source records in buf into as many destination records there, clears what is left of the source records, and counts the exceptions.
pub fn replace_records(
    buf: &mut [u8],
    background: &[u8],
    count: usize,
    source_size: usize,
    destination_size: usize,
    plan: &[u32],
    entries: usize,
    source_half: &[u32],
    destination_half: &[u32],
    words: &[u32],
) -> u64
    requires { Job source_size destination_size plan.now entries source_half.now destination_half.now words.now × (count ≤ 65536) × (count * source_size ≤ length buf.old) × (count * destination_size ≤ length buf.old) × (count * destination_size ≤ length background.now) }
    ensures { (j : Job source_size destination_size plan.now entries source_half.now destination_half.now words.now) → (buf.new ≡ in_place_result j.source j.destination count buf.old background.now) × (result ≡ exceptions j.source j.destination count (readings j.source j.destination buf.old)) }
{
    if source_size < destination_size {
        return replace_down(
            buf,
            background,
            count,
            source_size,
            destination_size,
            plan,
            entries,
            source_half,
            destination_half,
            words,
        );
    }
    let total = replace_up(
        buf,
        background,
        count,
        source_size,
        destination_size,
        plan,
        entries,
        source_half,
        destination_half,
        words,
    );
    clear_bytes(
        &mut buf[count * destination_size..],
        count * source_size - count * destination_size,
    );
    total
}
