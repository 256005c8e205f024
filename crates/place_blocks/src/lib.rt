// In place in blocks: as many whole source records as the staging record has room for at a time, leaf by leaf.
#![tactic(auto)]

ghost use Rattle.std.specs.Prelude.{◌≡◌, true, ◌-◌, ◌*◌, ◌/◌, ◌≤◌, length};
ghost use Rattle.plans.specs.PlanWords.{Job};
ghost use Rattle.loops.specs.Steps.{Up, Down};
ghost use Rattle.symbol_slots.specs.Tables.{Tabled};
ghost use Rattle.whole_writes.specs.Writes.{WritesEach};
ghost use Rattle.block_parts.specs.Parts.{InParts};

use block_columns::SLOTS_WORDS;
use block_sizes::{BLOCK, FEWEST, Progress, least, staged_at_once};
use plan_parts::parts_of;
use staged_block::replace_block;
use staged_blocks::{last_records, replace_records};
use symbol_slots::{TABLES_WORDS, put_tables};
use whole_writes::writes_each_byte;

// So many records at once are enough, even where each of them is one part.
const FEWEST_STAGED: usize = 4;

// So many records pay for a look at each entry of their plan.
const MANY: usize = 64;

const NONE: Progress = Progress {
    records: 0,
    raised: 0,
};

// Whether the entries write each byte of a result record, where there are enough records for a look at each entry to be worth its while.
fn is_whole(
    count: usize,
    plan: &[u32],
    entries: usize,
    destination_size: usize,
    destination_half: &[u32],
) -> bool
    requires { 2 * entries ≤ length plan.now }
    ensures { result ≡ true → WritesEach destination_size plan.now entries destination_half.now }
{
    if count < MANY {
        return false;
    }
    writes_each_byte(plan, entries, destination_size, destination_half)
}

// From the first record up, where records do not grow and the entries all have columns.
fn plain_up(
    buf: &mut [u8],
    background: &[u8],
    staging: &mut [u8],
    count: usize,
    source_size: usize,
    destination_size: usize,
    plan: &[u32],
    entries: usize,
    parts: usize,
    source_half: &[u32],
    destination_half: &[u32],
    words: &[u32],
    tables: &[u64],
) -> Progress
    requires { Job source_size destination_size plan.now entries source_half.now destination_half.now words.now × Tabled tables.now plan.now entries source_half.now destination_half.now words.now × (2176 ≤ length tables.now) × InParts parts (source_size / parts) (destination_size / parts) (entries / parts) source_size destination_size plan.now entries source_half.now destination_half.now × (count ≤ 65536) × (destination_size ≤ source_size) × (4096 ≤ length staging.old) × (count * source_size ≤ length buf.old) × (count * destination_size ≤ length background.now) }
    ensures { (result.records ≤ count) × ((j : Job source_size destination_size plan.now entries source_half.now destination_half.now words.now) → Up j.source j.destination source_size destination_size count buf.old background.now result.records buf.new result.raised) }
{
    let mut slots = [0u64; SLOTS_WORDS];
    let mut narrow = [0u32; BLOCK];
    let mut wide = [0u64; BLOCK];
    let at_once = staged_at_once(source_size);
    let whole = is_whole(count, plan, entries, destination_size, destination_half);
    let mut raised: u64 = 0;
    let mut i: usize = 0;
    // A step is a block, of which the last may be shorter: a range with a step would say that no more plainly.
    while i < count {
        let k = least(at_once, count - i);
        raised += replace_block(
            buf,
            background,
            staging,
            i,
            k,
            source_size,
            destination_size,
            plan,
            entries,
            parts,
            whole,
            source_half,
            destination_half,
            &mut slots,
            &mut narrow,
            &mut wide,
            tables,
        );
        i += k;
    }
    Progress { records: i, raised }
}

// From the last record down, where records do not shrink and the entries all have columns. Those whose results lie behind all source records that are left go from the first of them on, as memory is
// read fastest.
fn plain_down(
    buf: &mut [u8],
    background: &[u8],
    staging: &mut [u8],
    count: usize,
    source_size: usize,
    destination_size: usize,
    plan: &[u32],
    entries: usize,
    parts: usize,
    source_half: &[u32],
    destination_half: &[u32],
    words: &[u32],
    tables: &[u64],
) -> Progress
    requires { Job source_size destination_size plan.now entries source_half.now destination_half.now words.now × Tabled tables.now plan.now entries source_half.now destination_half.now words.now × (2176 ≤ length tables.now) × InParts parts (source_size / parts) (destination_size / parts) (entries / parts) source_size destination_size plan.now entries source_half.now destination_half.now × (count ≤ 65536) × (source_size ≤ destination_size) × (4096 ≤ length staging.old) × (count * destination_size ≤ length buf.old) × (count * destination_size ≤ length background.now) }
    ensures { (result.records ≤ count) × ((j : Job source_size destination_size plan.now entries source_half.now destination_half.now words.now) → Down j.source j.destination source_size destination_size count buf.old background.now (count - result.records) buf.new result.raised) }
{
    let mut slots = [0u64; SLOTS_WORDS];
    let mut narrow = [0u32; BLOCK];
    let mut wide = [0u64; BLOCK];
    let at_once = staged_at_once(source_size);
    let whole = is_whole(count, plan, entries, destination_size, destination_half);
    let mut raised: u64 = 0;
    let mut i = count;
    // How many records come next hangs on where they stand: no range has these steps.
    while 0 < i {
        let k = last_records(i, at_once, source_size, destination_size);
        i -= k;
        raised += replace_records(
            buf,
            background,
            staging,
            i,
            k,
            at_once,
            source_size,
            destination_size,
            plan,
            entries,
            parts,
            whole,
            source_half,
            destination_half,
            &mut slots,
            &mut narrow,
            &mut wide,
            tables,
        );
    }
    Progress {
        records: count,
        raised,
    }
}

// Whether blocks are worth their while: of the parts of records there are enough, and enough go through the staging record at once.
fn has_blocks(count: usize, source_size: usize, parts: usize) -> bool
    requires { (count ≤ 65536) × (1 ≤ source_size) × (source_size ≤ 4096) × (parts ≤ 4096) }
{
    if parts * count < FEWEST {
        return false;
    }
    let at_once = staged_at_once(source_size);
    if FEWEST_STAGED <= at_once {
        return true;
    }
    FEWEST <= parts * at_once
}

// The equal parts into which the records fall: none where the records do not go in blocks.
fn parts_in_blocks(
    count: usize,
    source_size: usize,
    destination_size: usize,
    plan: &[u32],
    entries: usize,
    source_half: &[u32],
    destination_half: &[u32],
    words: &[u32],
) -> usize
    requires { Job source_size destination_size plan.now entries source_half.now destination_half.now words.now × (count ≤ 65536) }
    ensures { 1 ≤ result → InParts result (source_size / result) (destination_size / result) (entries / result) source_size destination_size plan.now entries source_half.now destination_half.now }
{
    let parts = parts_of(
        plan,
        entries,
        source_size,
        destination_size,
        source_half,
        destination_half,
    );
    if has_blocks(count, source_size, parts) {
        return parts;
    }
    0
}

// Converts records as replace_up does, and returns how many, with their exceptions; the rest is left to it.
pub fn blocks_up(
    buf: &mut [u8],
    background: &[u8],
    staging: &mut [u8],
    count: usize,
    source_size: usize,
    destination_size: usize,
    plan: &[u32],
    entries: usize,
    source_half: &[u32],
    destination_half: &[u32],
    words: &[u32],
) -> Progress
    requires { Job source_size destination_size plan.now entries source_half.now destination_half.now words.now × (count ≤ 65536) × (destination_size ≤ source_size) × (4096 ≤ length staging.old) × (count * source_size ≤ length buf.old) × (count * destination_size ≤ length background.now) }
    ensures { (result.records ≤ count) × ((j : Job source_size destination_size plan.now entries source_half.now destination_half.now words.now) → Up j.source j.destination source_size destination_size count buf.old background.now result.records buf.new result.raised) }
{
    let parts = parts_in_blocks(
        count,
        source_size,
        destination_size,
        plan,
        entries,
        source_half,
        destination_half,
        words,
    );
    if 0 < parts {
        let mut tables = [0u64; TABLES_WORDS];
        if put_tables(
            &mut tables,
            plan,
            entries,
            source_half,
            destination_half,
            words,
        ) {
            return plain_up(
                buf,
                background,
                staging,
                count,
                source_size,
                destination_size,
                plan,
                entries,
                parts,
                source_half,
                destination_half,
                words,
                &tables,
            );
        }
    }
    NONE
}

// Converts records as replace_down does, and returns how many, with their exceptions; the rest is left to it.
pub fn blocks_down(
    buf: &mut [u8],
    background: &[u8],
    staging: &mut [u8],
    count: usize,
    source_size: usize,
    destination_size: usize,
    plan: &[u32],
    entries: usize,
    source_half: &[u32],
    destination_half: &[u32],
    words: &[u32],
) -> Progress
    requires { Job source_size destination_size plan.now entries source_half.now destination_half.now words.now × (count ≤ 65536) × (source_size ≤ destination_size) × (4096 ≤ length staging.old) × (count * destination_size ≤ length buf.old) × (count * destination_size ≤ length background.now) }
    ensures { (result.records ≤ count) × ((j : Job source_size destination_size plan.now entries source_half.now destination_half.now words.now) → Down j.source j.destination source_size destination_size count buf.old background.now (count - result.records) buf.new result.raised) }
{
    let parts = parts_in_blocks(
        count,
        source_size,
        destination_size,
        plan,
        entries,
        source_half,
        destination_half,
        words,
    );
    if 0 < parts {
        let mut tables = [0u64; TABLES_WORDS];
        if put_tables(
            &mut tables,
            plan,
            entries,
            source_half,
            destination_half,
            words,
        ) {
            return plain_down(
                buf,
                background,
                staging,
                count,
                source_size,
                destination_size,
                plan,
                entries,
                parts,
                source_half,
                destination_half,
                words,
                &tables,
            );
        }
    }
    NONE
}
