// The records of a call, behind its checks and with its plan made.
#![tactic(auto)]

ghost use Rattle.std.specs.Prelude.{◌≡◌, ℕ, ◌*◌, ◌≤◌, length};
ghost use Rattle.records.specs.Plan.{plan_of};
ghost use Rattle.plans.specs.PlanWords.{Job};
ghost use Rattle.loops.specs.Stops.{stop_by};
ghost use Rattle.runs.specs.Run.Checked.{passed};
ghost use Rattle.conversion.specs.Call.{source_of, HasRecords, ConvertsIn, answer_of, StopSays, Decided, LeavesIn};

use copy_loop::copy_records;
use in_place_loop::replace_records;
use loops::Exception;
use scan_loop::first_exception;

// Converts the records in the buffer `out`, in place or from the buffer `other`, and counts the exceptions.
fn convert_records(
    in_place: bool,
    out: &mut [u8],
    other: &[u8],
    count: usize,
    source_size: usize,
    destination_size: usize,
    plan: &[u32],
    entries: usize,
    source_half: &[u32],
    destination_half: &[u32],
    words: &[u32],
) -> u64
    requires { Job source_size destination_size plan.now entries source_half.now destination_half.now words.now × HasRecords in_place count source_size destination_size (length out.old) (length other.now) }
    ensures { (j : Job source_size destination_size plan.now entries source_half.now destination_half.now words.now) → ConvertsIn in_place j.source j.destination count out.old other.now out.new result }
{
    if in_place {
        return replace_records(
            out,
            other,
            count,
            source_size,
            destination_size,
            plan,
            entries,
            source_half,
            destination_half,
            words,
        );
    }
    copy_records(
        other,
        out,
        count,
        source_size,
        destination_size,
        plan,
        entries,
        source_half,
        destination_half,
        words,
    )
}

// The first exception of the records, by a plan to any destination.
pub fn first_stop(
    in_place: bool,
    out: &[u8],
    other: &[u8],
    count: usize,
    source_size: usize,
    plan: &[u32],
    entries: usize,
    source_half: &[u32],
    destination_half: &[u32],
    words: &[u32],
) -> Option<Exception>
    requires { (d : ℕ) × Job source_size d plan.now entries source_half.now destination_half.now words.now × HasRecords in_place count source_size d (length out.now) (length other.now) }
    ensures { (d : ℕ) (j : Job source_size d plan.now entries source_half.now destination_half.now words.now) → result ≡ stop_by (plan_of j.source j.destination) source_size (source_of in_place out.now other.now) 0 count }
{
    if in_place {
        return first_exception(
            out,
            count,
            source_size,
            plan,
            entries,
            source_half,
            destination_half,
            words,
        );
    }
    first_exception(
        other,
        count,
        source_size,
        plan,
        entries,
        source_half,
        destination_half,
        words,
    )
}

// The exception that stops the call, where it is to be looked for by the whole plan.
fn stopped_by(
    in_place: bool,
    scan: bool,
    out: &[u8],
    other: &[u8],
    count: usize,
    source_size: usize,
    plan: &[u32],
    entries: usize,
    source_half: &[u32],
    destination_half: &[u32],
    words: &[u32],
) -> Option<Exception>
    requires { (d : ℕ) × Job source_size d plan.now entries source_half.now destination_half.now words.now × HasRecords in_place count source_size d (length out.now) (length other.now) }
    ensures { (d : ℕ) (j : Job source_size d plan.now entries source_half.now destination_half.now words.now) (h : ℕ) → h ≤ 1 → Decided h j.source j.destination count (source_of in_place out.now other.now) scan → StopSays h j.source j.destination count (source_of in_place out.now other.now) result }
{
    if scan {
        return first_stop(
            in_place,
            out,
            other,
            count,
            source_size,
            plan,
            entries,
            source_half,
            destination_half,
            words,
        );
    }
    None
}

// By the whole plan: converts, and counts the exceptions; where `scan` says so, it first looks for one, and where there is one, nothing is written.
pub fn convert_planned(
    in_place: bool,
    scan: bool,
    out: &mut [u8],
    other: &[u8],
    count: usize,
    source_size: usize,
    destination_size: usize,
    plan: &[u32],
    entries: usize,
    source_half: &[u32],
    destination_half: &[u32],
    words: &[u32],
) -> Result<u64, Exception>
    requires { Job source_size destination_size plan.now entries source_half.now destination_half.now words.now × HasRecords in_place count source_size destination_size (length out.old) (length other.now) }
    ensures { (j : Job source_size destination_size plan.now entries source_half.now destination_half.now words.now) (h : ℕ) → h ≤ 1 → Decided h j.source j.destination count (source_of in_place out.old other.now) scan → LeavesIn in_place h count out.old other.now (passed j.source j.destination) (answer_of result) out.new }
{
    if let Some(first) = stopped_by(
        in_place,
        scan,
        out,
        other,
        count,
        source_size,
        plan,
        entries,
        source_half,
        destination_half,
        words,
    ) {
        return Err(first);
    }
    Ok(convert_records(
        in_place,
        out,
        other,
        count,
        source_size,
        destination_size,
        plan,
        entries,
        source_half,
        destination_half,
        words,
    ))
}
