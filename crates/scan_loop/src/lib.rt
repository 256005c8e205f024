// The first exception over n records, for a call that stops at one.
#![tactic(auto)]

ghost use Rattle.std.specs.Prelude.{◌≡◌, ℕ, ◌*◌, ◌≤◌, length};
ghost use Rattle.records.specs.Plan.{plan_of};
ghost use Rattle.plans.specs.PlanWords.{Job};
ghost use Rattle.loops.specs.Stops.{stop_by};

use block_sizes::{FEWEST, copied_at_once};
use loops::Exception;
use one_record::first_raising;
use quiet_blocks::quiet_records;

// The first of so many source records in src that raises an exception, and its first leaf that does: by blocks, in the block that has one by the smallest blocks, and only then record by record.
pub fn first_exception(
    src: &[u8],
    count: usize,
    source_size: usize,
    plan: &[u32],
    entries: usize,
    source_half: &[u32],
    destination_half: &[u32],
    words: &[u32],
) -> Option<Exception>
    requires { ((d : ℕ) × Job source_size d plan.now entries source_half.now destination_half.now words.now) × (count ≤ 65536) × (count * source_size ≤ length src.now) }
    ensures { (d : ℕ) (j : Job source_size d plan.now entries source_half.now destination_half.now words.now) → result ≡ stop_by (plan_of j.source j.destination) source_size src.now 0 count }
{
    let block = quiet_records(
        src,
        0,
        copied_at_once(source_size),
        count,
        source_size,
        plan,
        entries,
        source_half,
        destination_half,
        words,
    );
    let quiet = quiet_records(
        src,
        block,
        FEWEST,
        count,
        source_size,
        plan,
        entries,
        source_half,
        destination_half,
        words,
    );
    for i in quiet..count {
        if let Some(leaf) = first_raising(
            &src[i * source_size..],
            plan,
            entries,
            source_half,
            destination_half,
            words,
        ) {
            return Some(Exception {
                record: i as u32,
                byte: leaf.byte,
                kind: leaf.kind,
                given: leaf.given,
            });
        }
    }
    None
}
