// Blocks of records that raise no exception, for a call that stops at one.
#![tactic(auto)]

ghost use Rattle.std.specs.Prelude.{◌≡◌, ℕ, ◌-◌, ◌*◌, ◌≤◌, length};
ghost use Rattle.records.specs.Plan.{plan_of};
ghost use Rattle.plans.specs.PlanWords.{Job};
ghost use Rattle.loops.specs.Stops.{stop_by};
ghost use Rattle.symbol_slots.specs.Tables.{Tabled};

use block_columns::{SLOTS_WORDS, block_raised};
use block_sizes::{BLOCK, FEWEST, least};
use symbol_slots::{TABLES_WORDS, put_tables};

// The records from one on, of so many, so many at once, of a call whose entries all have columns: the block in which one raises an exception ends them.
fn quiet_plain(
    src: &[u8],
    from: usize,
    at_once: usize,
    count: usize,
    source_size: usize,
    plan: &[u32],
    entries: usize,
    source_half: &[u32],
    destination_half: &[u32],
    words: &[u32],
    tables: &[u64],
) -> usize
    requires { ((d : ℕ) × Job source_size d plan.now entries source_half.now destination_half.now words.now) × Tabled tables.now plan.now entries source_half.now destination_half.now words.now × (2176 ≤ length tables.now) × (count ≤ 65536) × (count * source_size ≤ length src.now) × (from ≤ count) × (1 ≤ at_once) × (at_once ≤ 256) × ((d : ℕ) (j : Job source_size d plan.now entries source_half.now destination_half.now words.now) → stop_by (plan_of j.source j.destination) source_size src.now 0 count ≡ stop_by (plan_of j.source j.destination) source_size src.now from (count - from)) }
    ensures { (result ≤ count) × ((d : ℕ) (j : Job source_size d plan.now entries source_half.now destination_half.now words.now) → stop_by (plan_of j.source j.destination) source_size src.now 0 count ≡ stop_by (plan_of j.source j.destination) source_size src.now result (count - result)) }
{
    let mut slots = [0u64; SLOTS_WORDS];
    let mut narrow = [0u32; BLOCK];
    let mut wide = [0u64; BLOCK];
    let mut i = from;
    // Where the blocks end is answered, since a few records may be left over: no range tells that.
    while i + FEWEST <= count {
        let k = least(at_once, count - i);
        if block_raised(
            &src[i * source_size..],
            k,
            source_size,
            plan,
            entries,
            source_half,
            destination_half,
            &mut slots,
            &mut narrow,
            &mut wide,
            tables,
        ) != 0
        {
            return i;
        }
        i += k;
    }
    i
}

// Where none before a record raises one: the next record before which none is known to raise one, by blocks of so many records. The search for the first that does goes on there.
pub fn quiet_records(
    src: &[u8],
    from: usize,
    at_once: usize,
    count: usize,
    source_size: usize,
    plan: &[u32],
    entries: usize,
    source_half: &[u32],
    destination_half: &[u32],
    words: &[u32],
) -> usize
    requires { ((d : ℕ) × Job source_size d plan.now entries source_half.now destination_half.now words.now) × (count ≤ 65536) × (count * source_size ≤ length src.now) × (from ≤ count) × (1 ≤ at_once) × (at_once ≤ 256) × ((d : ℕ) (j : Job source_size d plan.now entries source_half.now destination_half.now words.now) → stop_by (plan_of j.source j.destination) source_size src.now 0 count ≡ stop_by (plan_of j.source j.destination) source_size src.now from (count - from)) }
    ensures { (result ≤ count) × ((d : ℕ) (j : Job source_size d plan.now entries source_half.now destination_half.now words.now) → stop_by (plan_of j.source j.destination) source_size src.now 0 count ≡ stop_by (plan_of j.source j.destination) source_size src.now result (count - result)) }
{
    if count - from < FEWEST {
        return from;
    }
    let mut tables = [0u64; TABLES_WORDS];
    if put_tables(
        &mut tables,
        plan,
        entries,
        source_half,
        destination_half,
        words,
    ) {
        return quiet_plain(
            src,
            from,
            at_once,
            count,
            source_size,
            plan,
            entries,
            source_half,
            destination_half,
            words,
            &tables,
        );
    }
    from
}
