// Copying in blocks: some records at a time, leaf by leaf.
#![tactic(auto)]

ghost use Rattle.std.specs.Prelude.{◌≡◌, ◌*◌, ◌≤◌, length};
ghost use Rattle.plans.specs.PlanWords.{Job};
ghost use Rattle.loops.specs.Steps.{Done};
ghost use Rattle.symbol_slots.specs.Tables.{Tabled};

use block_columns::SLOTS_WORDS;
use block_parts::grouped_block;
use block_sizes::{BLOCK, FEWEST, Progress, copied_at_once, least};
use plan_parts::parts_of;
use symbol_slots::{TABLES_WORDS, put_tables};

// From so many leaves on a record may fall into parts that are worth a block.
const MANY: usize = 32;

const NONE: Progress = Progress {
    records: 0,
    raised: 0,
};

// The fewest records that make a block: one that falls into many equal parts has numbers enough in each column.
fn fewest(parts: usize) -> usize
    ensures { (1 ≤ result) × (result ≤ 8) }
{
    if FEWEST <= parts { 1 } else { FEWEST }
}

// The blocks of a call whose entries all have columns.
fn copy_plain(
    src: &[u8],
    dst: &mut [u8],
    count: usize,
    source_size: usize,
    destination_size: usize,
    plan: &[u32],
    entries: usize,
    source_half: &[u32],
    destination_half: &[u32],
    words: &[u32],
    tables: &[u64],
) -> Progress
    requires { Job source_size destination_size plan.now entries source_half.now destination_half.now words.now × Tabled tables.now plan.now entries source_half.now destination_half.now words.now × (2176 ≤ length tables.now) × (count ≤ 65536) × (count * source_size ≤ length src.now) × (count * destination_size ≤ length dst.old) }
    ensures { (result.records ≤ count) × ((j : Job source_size destination_size plan.now entries source_half.now destination_half.now words.now) → Done j.source j.destination destination_size count src.now dst.old result.records dst.new result.raised) }
{
    let parts = parts_of(
        plan,
        entries,
        source_size,
        destination_size,
        source_half,
        destination_half,
    );
    let few = fewest(parts);
    let mut slots = [0u64; SLOTS_WORDS];
    let mut narrow = [0u32; BLOCK];
    let mut wide = [0u64; BLOCK];
    let at_once = copied_at_once(source_size.max(destination_size));
    let mut raised: u64 = 0;
    let mut i: usize = 0;
    // Where the blocks end is answered, since a few records may be left over: no range tells that.
    while i + few <= count {
        let k = least(at_once, count - i);
        raised += grouped_block(
            &src[i * source_size..],
            &mut dst[i * destination_size..],
            k,
            source_size,
            destination_size,
            plan,
            entries,
            parts,
            source_half,
            destination_half,
            &mut slots,
            &mut narrow,
            &mut wide,
            tables,
        );
        i += k;
    }
    Progress { records: i, raised }
}

// Converts records as copy_records does, and returns how many, with their exceptions; the rest is left to it.
pub fn copy_blocks(
    src: &[u8],
    dst: &mut [u8],
    count: usize,
    source_size: usize,
    destination_size: usize,
    plan: &[u32],
    entries: usize,
    source_half: &[u32],
    destination_half: &[u32],
    words: &[u32],
) -> Progress
    requires { Job source_size destination_size plan.now entries source_half.now destination_half.now words.now × (count ≤ 65536) × (count * source_size ≤ length src.now) × (count * destination_size ≤ length dst.old) }
    ensures { (result.records ≤ count) × ((j : Job source_size destination_size plan.now entries source_half.now destination_half.now words.now) → Done j.source j.destination destination_size count src.now dst.old result.records dst.new result.raised) }
{
    if count < FEWEST {
        // Few records of few leaves go one by one: a block's arrays have to be cleared first.
        if entries < MANY {
            return NONE;
        }
    }
    let mut tables = [0u64; TABLES_WORDS];
    if put_tables(
        &mut tables,
        plan,
        entries,
        source_half,
        destination_half,
        words,
    ) {
        return copy_plain(
            src,
            dst,
            count,
            source_size,
            destination_size,
            plan,
            entries,
            source_half,
            destination_half,
            words,
            &tables,
        );
    }
    NONE
}
