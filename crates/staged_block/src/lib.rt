// A block of records in place: through the staging record, over their background.
#![tactic(auto)]

ghost use Rattle.std.specs.Prelude.{◌≡◌, true, cond, List, ◌++◌, ℕ, ◌+◌, ◌-◌, ◌*◌, ◌/◌, ◌≤◌, length, take, drop};
ghost use borrow.Rule.Slice.PartMut.{put_mid};
ghost use Rattle.plans.specs.PlanWords.{Ready, entries_of};
ghost use Rattle.loops.specs.Steps.{put};
ghost use Rattle.column_slots.specs.Slots.{Kept};
ghost use Rattle.blocks.specs.Blocks.{each_of, raised_over};
ghost use Rattle.symbol_slots.specs.Tables.{TablesKept, Columned};
ghost use Rattle.whole_writes.specs.Writes.{WritesEach};
ghost use Rattle.block_parts.specs.Parts.{InParts};

use block_parts::grouped_block;
use loops::bytes::copy_bytes;

// So many bytes of the background go under result records: none where each byte is written anyway.
fn laid_bytes(whole: bool, bytes: usize) -> usize
    ensures { (result ≡ cond whole 0 bytes) × (result ≤ bytes) }
{
    if whole { 0 } else { bytes }
}

// The n bytes of src from byte at on go to the start of dst.
fn take_bytes(dst: &mut [u8], src: &[u8], at: usize, n: usize)
    requires { (at + n ≤ length src.now) × (n ≤ length dst.old) }
    ensures { dst.new ≡ take n (take (length src.now - at) (drop at src.now)) ++ drop n dst.old }
{
    copy_bytes(dst, &src[at..], n);
}

// The n bytes of src from byte at on go to the same place in dst.
fn lay_bytes(dst: &mut [u8], src: &[u8], at: usize, n: usize)
    requires { (at + n ≤ length src.now) × (at + n ≤ length dst.old) }
    ensures { dst.new ≡ put_mid at (length dst.old - at) dst.old (take n (take (length src.now - at) (drop at src.now)) ++ drop n (take (length dst.old - at) (drop at dst.old))) }
{
    copy_bytes(&mut dst[at..], &src[at..], n);
}

// The k source records from record i on become result records over those of the background. Where the entries write each byte of a result record the background is not looked at.
pub fn replace_block(
    buf: &mut [u8],
    background: &[u8],
    staging: &mut [u8],
    i: usize,
    k: usize,
    source_size: usize,
    destination_size: usize,
    plan: &[u32],
    entries: usize,
    parts: usize,
    whole: bool,
    source_half: &[u32],
    destination_half: &[u32],
    slots: &mut [u64],
    narrow: &mut [u32],
    wide: &mut [u64],
    tables: &[u64],
) -> u64
    requires { ((words : List ℕ) × (p : Ready source_size destination_size plan.now entries source_half.now destination_half.now words) × Columned tables.now plan.now entries words × TablesKept tables.now source_half.now p.source_text destination_half.now p.destination_text) × (2176 ≤ length tables.now) × InParts parts (source_size / parts) (destination_size / parts) (entries / parts) source_size destination_size plan.now entries source_half.now destination_half.now × Kept slots.old source_half.now destination_half.now × (1024 ≤ length slots.old) × (k ≤ 256) × (256 ≤ length narrow.old) × (256 ≤ length wide.old) × (k * source_size ≤ length staging.old) × (i * source_size + k * source_size ≤ length buf.old) × (i * destination_size + k * destination_size ≤ length buf.old) × (i * destination_size + k * destination_size ≤ length background.now) × (whole ≡ true → WritesEach destination_size plan.now entries destination_half.now) }
    ensures { ((words : List ℕ) (p : Ready source_size destination_size plan.now entries source_half.now destination_half.now words) → Columned tables.now plan.now entries words → TablesKept tables.now source_half.now p.source_text destination_half.now p.destination_text → (buf.new ≡ put (i * destination_size) (k * destination_size) (each_of (entries_of p) source_size destination_size (take (k * source_size) (drop (i * source_size) buf.old)) k (take (k * destination_size) (drop (i * destination_size) background.now))) buf.old) × (result ≡ raised_over (entries_of p) source_size (take (k * source_size) (drop (i * source_size) buf.old)) k)) × Kept slots.new source_half.now destination_half.now }
{
    take_bytes(staging, buf, i * source_size, k * source_size);
    lay_bytes(
        buf,
        background,
        i * destination_size,
        laid_bytes(whole, k * destination_size),
    );
    grouped_block(
        staging,
        &mut buf[i * destination_size..],
        k,
        source_size,
        destination_size,
        plan,
        entries,
        parts,
        source_half,
        destination_half,
        slots,
        narrow,
        wide,
        tables,
    )
}
