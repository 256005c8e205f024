// A block of records, leaf by leaf: an entry of the plan is done in all of them before the next.
#![tactic(auto)]

ghost use Rattle.std.specs.Prelude.{◌≡◌, List, ℕ, ◌*◌, ◌≤◌, length};
ghost use Rattle.plans.specs.PlanWords.{Ready, entries_of};
ghost use Rattle.column_slots.specs.Slots.{Kept};
ghost use Rattle.blocks.specs.Blocks.{each_of, raised_over};
ghost use Rattle.symbol_slots.specs.Tables.{TablesKept, Columned};

use entry_columns::{entry_column, entry_raised};
use piece_moves::block_step;
use plan_words::entry;

// Words of the slots of a call.
pub const SLOTS_WORDS: usize = 1024;

// Writes the plan's leaves of so many source records over as many destination records, leaf by leaf, and counts the exceptions.
pub fn block(
    src: &[u8],
    dst: &mut [u8],
    count: usize,
    source_size: usize,
    destination_size: usize,
    plan: &[u32],
    entries: usize,
    source_half: &[u32],
    destination_half: &[u32],
    slots: &mut [u64],
    narrow: &mut [u32],
    wide: &mut [u64],
    tables: &[u64],
) -> u64
    requires { ((words : List ℕ) × (p : Ready source_size destination_size plan.now entries source_half.now destination_half.now words) × Columned tables.now plan.now entries words × TablesKept tables.now source_half.now p.source_text destination_half.now p.destination_text) × (2176 ≤ length tables.now) × Kept slots.old source_half.now destination_half.now × (1024 ≤ length slots.old) × (count ≤ 65536) × (count ≤ length narrow.old) × (count ≤ length wide.old) × (count * source_size ≤ length src.now) × (count * destination_size ≤ length dst.old) }
    ensures { ((words : List ℕ) (p : Ready source_size destination_size plan.now entries source_half.now destination_half.now words) → Columned tables.now plan.now entries words → TablesKept tables.now source_half.now p.source_text destination_half.now p.destination_text → (dst.new ≡ each_of (entries_of p) source_size destination_size src.now count dst.old) × (result ≡ raised_over (entries_of p) source_size src.now count)) × Kept slots.new source_half.now destination_half.now }
{
    let mut raised: u64 = 0;
    let mut i: usize = 0;
    // A step may move a run of entries at once: no range has these steps.
    while i < entries {
        let moved = block_step(
            src,
            dst,
            count,
            source_size,
            destination_size,
            plan,
            i,
            entries,
            source_half,
            destination_half,
        );
        if moved == 0 {
            let e = entry(plan, i);
            raised += entry_column(
                src,
                dst,
                count,
                source_size,
                destination_size,
                e,
                source_half,
                destination_half,
                slots,
                narrow,
                wide,
                tables,
            );
            i += 1;
        } else {
            i += moved;
        }
    }
    raised
}

// How many exceptions the plan's leaves of so many source records raise; nothing is written.
pub fn block_raised(
    src: &[u8],
    count: usize,
    source_size: usize,
    plan: &[u32],
    entries: usize,
    source_half: &[u32],
    destination_half: &[u32],
    slots: &mut [u64],
    narrow: &mut [u32],
    wide: &mut [u64],
    tables: &[u64],
) -> u64
    requires { ((d : ℕ) × (words : List ℕ) × (p : Ready source_size d plan.now entries source_half.now destination_half.now words) × Columned tables.now plan.now entries words × TablesKept tables.now source_half.now p.source_text destination_half.now p.destination_text) × (2176 ≤ length tables.now) × Kept slots.old source_half.now destination_half.now × (1024 ≤ length slots.old) × (count ≤ 65536) × (count ≤ length narrow.old) × (count ≤ length wide.old) × (count * source_size ≤ length src.now) }
    ensures { ((d : ℕ) (words : List ℕ) (p : Ready source_size d plan.now entries source_half.now destination_half.now words) → Columned tables.now plan.now entries words → TablesKept tables.now source_half.now p.source_text destination_half.now p.destination_text → result ≡ raised_over (entries_of p) source_size src.now count) × Kept slots.new source_half.now destination_half.now }
{
    let mut raised: u64 = 0;
    for i in 0..entries {
        let leaf = entry(plan, i);
        raised += entry_raised(
            src,
            count,
            source_size,
            leaf,
            source_half,
            destination_half,
            slots,
            narrow,
            wide,
            tables,
        );
    }
    raised
}
