// Records in place, block after block from the first of them on.
#![tactic(auto)]

ghost use Rattle.std.specs.Prelude.{◌≡◌, true, List, ℕ, ◌+◌, ◌*◌, ◌/◌, ◌-◌, ◌≤◌, ◌<◌, length, take, drop};
ghost use Rattle.plans.specs.PlanWords.{Ready, entries_of};
ghost use Rattle.loops.specs.Steps.{put};
ghost use Rattle.column_slots.specs.Slots.{Kept};
ghost use Rattle.blocks.specs.Blocks.{each_of, raised_over};
ghost use Rattle.symbol_slots.specs.Tables.{TablesKept, Columned};
ghost use Rattle.whole_writes.specs.Writes.{WritesEach};
ghost use Rattle.block_parts.specs.Parts.{InParts};

use block_sizes::least;
use staged_block::replace_block;

// How many of i records go next, where records grow: those whose results lie behind all i source records, which can so go from the first of them on; where these are no more than a block,
// the last block.
pub fn last_records(i: usize, at_once: usize, source_size: usize, destination_size: usize) -> usize
    requires { (1 ≤ i) × (i ≤ 65536) × (1 ≤ at_once) × (at_once ≤ 256) × (source_size ≤ 4096) × (1 ≤ destination_size) × (destination_size ≤ 4096) }
    ensures { (1 ≤ result) × (result ≤ i) × (at_once < result → i * source_size ≤ (i - result) * destination_size) }
{
    let first = (i * source_size + destination_size - 1) / destination_size;
    if first + at_once < i {
        return i - first;
    }
    least(at_once, i)
}

// The k source records from record i on become result records over those of the background, so many at once. Where they are more, their results lie behind all of them.
pub fn replace_records(
    buf: &mut [u8],
    background: &[u8],
    staging: &mut [u8],
    i: usize,
    k: usize,
    at_once: usize,
    source_size: usize,
    destination_size: usize,
    plan: &[u32],
    entries: usize,
    parts: usize,
    whole: bool,
    source_half: &[u32],
    destination_half: &[u32],
    slots: &mut [u64],
    narrow: &mut [u32],
    wide: &mut [u64],
    tables: &[u64],
) -> u64
    requires { ((words : List ℕ) × (p : Ready source_size destination_size plan.now entries source_half.now destination_half.now words) × Columned tables.now plan.now entries words × TablesKept tables.now source_half.now p.source_text destination_half.now p.destination_text) × (2176 ≤ length tables.now) × InParts parts (source_size / parts) (destination_size / parts) (entries / parts) source_size destination_size plan.now entries source_half.now destination_half.now × Kept slots.old source_half.now destination_half.now × (1024 ≤ length slots.old) × (i + k ≤ 65536) × (256 ≤ length narrow.old) × (256 ≤ length wide.old) × ((1 ≤ at_once) × (at_once ≤ 256) × (at_once * source_size ≤ length staging.old)) × (i * source_size + k * source_size ≤ length buf.old) × (i * destination_size + k * destination_size ≤ length buf.old) × (i * destination_size + k * destination_size ≤ length background.now) × (whole ≡ true → WritesEach destination_size plan.now entries destination_half.now) × (at_once < k → i * source_size + k * source_size ≤ i * destination_size) }
    ensures { ((words : List ℕ) (p : Ready source_size destination_size plan.now entries source_half.now destination_half.now words) → Columned tables.now plan.now entries words → TablesKept tables.now source_half.now p.source_text destination_half.now p.destination_text → (buf.new ≡ put (i * destination_size) (k * destination_size) (each_of (entries_of p) source_size destination_size (take (k * source_size) (drop (i * source_size) buf.old)) k (take (k * destination_size) (drop (i * destination_size) background.now))) buf.old) × (result ≡ raised_over (entries_of p) source_size (take (k * source_size) (drop (i * source_size) buf.old)) k)) × Kept slots.new source_half.now destination_half.now }
{
    let mut raised: u64 = 0;
    let mut j: usize = 0;
    // A step is a block, of which the last may be shorter: a range with a step would say that no more plainly.
    while j < k {
        let more = least(at_once, k - j);
        raised += replace_block(
            buf,
            background,
            staging,
            i + j,
            more,
            source_size,
            destination_size,
            plan,
            entries,
            parts,
            whole,
            source_half,
            destination_half,
            slots,
            narrow,
            wide,
            tables,
        );
        j += more;
    }
    raised
}
