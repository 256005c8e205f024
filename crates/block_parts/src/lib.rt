// A block of records that fall into equal parts is a longer block of the parts.
#![tactic(auto)]

ghost use Rattle.std.specs.Prelude.{◌≡◌, List, ℕ, ◌*◌, ◌/◌, ◌≤◌, length};
ghost use Rattle.plans.specs.PlanWords.{Ready, entries_of};
ghost use Rattle.column_slots.specs.Slots.{Kept};
ghost use Rattle.blocks.specs.Blocks.{each_of, raised_over};
ghost use Rattle.symbol_slots.specs.Tables.{TablesKept, Columned};
ghost use Rattle.block_parts.specs.Parts.{InParts};

use block_columns::block;
use block_sizes::{BLOCK, least};

// As block_columns::block, for any count: a block at a time.
pub fn part_block(
    src: &[u8],
    dst: &mut [u8],
    count: usize,
    source_size: usize,
    destination_size: usize,
    plan: &[u32],
    entries: usize,
    source_half: &[u32],
    destination_half: &[u32],
    slots: &mut [u64],
    narrow: &mut [u32],
    wide: &mut [u64],
    tables: &[u64],
) -> u64
    requires { ((words : List ℕ) × (p : Ready source_size destination_size plan.now entries source_half.now destination_half.now words) × Columned tables.now plan.now entries words × TablesKept tables.now source_half.now p.source_text destination_half.now p.destination_text) × (2176 ≤ length tables.now) × Kept slots.old source_half.now destination_half.now × (1024 ≤ length slots.old) × (count ≤ 268435456) × (256 ≤ length narrow.old) × (256 ≤ length wide.old) × (count * source_size ≤ length src.now) × (count * destination_size ≤ length dst.old) }
    ensures { ((words : List ℕ) (p : Ready source_size destination_size plan.now entries source_half.now destination_half.now words) → Columned tables.now plan.now entries words → TablesKept tables.now source_half.now p.source_text destination_half.now p.destination_text → (dst.new ≡ each_of (entries_of p) source_size destination_size src.now count dst.old) × (result ≡ raised_over (entries_of p) source_size src.now count)) × Kept slots.new source_half.now destination_half.now }
{
    let mut raised: u64 = 0;
    let mut i: usize = 0;
    // A step is a block, of which the last may be shorter: a range with a step would say that no more plainly.
    while i < count {
        let k = least(BLOCK, count - i);
        raised += block(
            &src[i * source_size..],
            &mut dst[i * destination_size..],
            k,
            source_size,
            destination_size,
            plan,
            entries,
            source_half,
            destination_half,
            slots,
            narrow,
            wide,
            tables,
        );
        i += k;
    }
    raised
}

// What block_columns::block does, where each record is so many records of a part of the plan.
pub fn grouped_block(
    src: &[u8],
    dst: &mut [u8],
    count: usize,
    source_size: usize,
    destination_size: usize,
    plan: &[u32],
    entries: usize,
    parts: usize,
    source_half: &[u32],
    destination_half: &[u32],
    slots: &mut [u64],
    narrow: &mut [u32],
    wide: &mut [u64],
    tables: &[u64],
) -> u64
    requires { ((words : List ℕ) × (p : Ready source_size destination_size plan.now entries source_half.now destination_half.now words) × Columned tables.now plan.now entries words × TablesKept tables.now source_half.now p.source_text destination_half.now p.destination_text) × (2176 ≤ length tables.now) × InParts parts (source_size / parts) (destination_size / parts) (entries / parts) source_size destination_size plan.now entries source_half.now destination_half.now × Kept slots.old source_half.now destination_half.now × (1024 ≤ length slots.old) × (count ≤ 65536) × (256 ≤ length narrow.old) × (256 ≤ length wide.old) × (count * source_size ≤ length src.now) × (count * destination_size ≤ length dst.old) }
    ensures { ((words : List ℕ) (p : Ready source_size destination_size plan.now entries source_half.now destination_half.now words) → Columned tables.now plan.now entries words → TablesKept tables.now source_half.now p.source_text destination_half.now p.destination_text → (dst.new ≡ each_of (entries_of p) source_size destination_size src.now count dst.old) × (result ≡ raised_over (entries_of p) source_size src.now count)) × Kept slots.new source_half.now destination_half.now }
{
    part_block(
        src,
        dst,
        count * parts,
        source_size / parts,
        destination_size / parts,
        plan,
        entries / parts,
        source_half,
        destination_half,
        slots,
        narrow,
        wide,
        tables,
    )
}
