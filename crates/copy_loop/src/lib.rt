// Copying: a source buffer, and a destination buffer whose own bytes are the background.
#![tactic(auto)]

ghost use Rattle.std.specs.Prelude.{◌≡◌, ◌*◌, ◌≤◌, length};
ghost use Rattle.records.specs.Records.{readings, exceptions, copy_result};
ghost use Rattle.plans.specs.PlanWords.{Job};

use bulk_records::copy_bulk;
use one_record::write_record;

// Converts so many source records in src into as many destination records in dst, and counts the exceptions.
pub fn copy_records(
    src: &[u8],
    dst: &mut [u8],
    count: usize,
    source_size: usize,
    destination_size: usize,
    plan: &[u32],
    entries: usize,
    source_half: &[u32],
    destination_half: &[u32],
    words: &[u32],
) -> u64
    requires { Job source_size destination_size plan.now entries source_half.now destination_half.now words.now × (count ≤ 65536) × (count * source_size ≤ length src.now) × (count * destination_size ≤ length dst.old) }
    ensures { (j : Job source_size destination_size plan.now entries source_half.now destination_half.now words.now) → (dst.new ≡ copy_result j.source j.destination count src.now dst.old) × (result ≡ exceptions j.source j.destination count (readings j.source j.destination src.now)) }
{
    let done = copy_bulk(
        src,
        dst,
        count,
        source_size,
        destination_size,
        plan,
        entries,
        source_half,
        destination_half,
        words,
    );
    let mut total = done.raised;
    for i in done.records..count {
        total += write_record(
            &src[i * source_size..],
            &mut dst[i * destination_size..],
            plan,
            entries,
            source_half,
            destination_half,
            words,
        );
    }
    total
}
