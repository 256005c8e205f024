// The plan of a call: the matched leaves in byte order, two words each.
#![tactic(auto)]

ghost use Rattle.std.specs.Prelude.{◌≡◌, ◌+◌, ◌*◌, ◌≤◌, ◌<◌, length};
ghost use Rattle.datatype.specs.Datatype.{Datatype, size};
ghost use Rattle.datatype.specs.WellFormed.{WellFormed};
ghost use Rattle.table.specs.Table.{type_at};
ghost use Rattle.obeying.specs.Obeying.{StopsOf};
ghost use Rattle.paths.specs.Leaf.{Small};
ghost use Rattle.paths.specs.Plan.{Added, Planned, entry_put, step_of};
ghost use Rattle.planning.specs.StopMatch.{StopMatch};

use datatype::CLAMP;
use matching::match_at;
use obeying::handling_at;
use paths::Pair;
use plans::{BYTES, TYPES};
use table::SIZE;
use table::read::type_word;

// Entry i: the destination's byte, the source's byte, the source leaf's type number and the destination leaf's.
fn put_entry(
    plan: &mut [u32],
    i: usize,
    destination_byte: usize,
    source_byte: usize,
    source_type: usize,
    destination_type: usize,
)
    requires { (2 * i + 2 ≤ length plan.old) × (destination_byte < 4096) × (source_byte < 4096) × (source_type < 64) × (destination_type < 64) }
    ensures { plan.new ≡ entry_put plan.old i destination_byte source_byte source_type destination_type }
{
    let at = 2 * i;
    plan[at] = (destination_byte * BYTES + source_byte) as u32;
    plan[at + 1] = (source_type * TYPES + destination_type) as u32;
}

// The entries so far and one more where the leaf at this byte is matched; how many there are then.
fn add_entry(plan: &mut [u32], entries: usize, destination_byte: usize, m: Pair) -> usize
    requires { (2 * entries + 2 ≤ length plan.old) × (destination_byte < 4096) × Small m }
    ensures { Added plan.old entries destination_byte m plan.new result }
{
    let Pair::Matched(source_byte, source_type, destination_type) = m else {
        return entries;
    };
    put_entry(
        plan,
        entries,
        destination_byte,
        source_byte,
        source_type,
        destination_type,
    );
    entries + 1
}

// How many bytes on the next leaf may start: behind a matched one, or behind the bytes without a match.
pub fn step_of(destination_half: &[u32], m: Pair) -> usize
    ensures { result ≡ step_of destination_half.now m }
{
    match m {
        Pair::Matched(source_byte, source_type, destination_type) => type_word(
            destination_half,
            destination_type,
            SIZE,
        ),
        Pair::Unmatched(n) => n,
    }
}

// The matched leaves from the source type to the destination type; how many there are.
pub fn plan(
    source_half: &[u32],
    source_sheet: &[u8],
    source_type: usize,
    destination_half: &[u32],
    destination_sheet: &[u8],
    destination_type: usize,
    plan: &mut [u32],
) -> usize
    requires { WellFormed (type_at source_half.now source_sheet.now source_type) × WellFormed (type_at destination_half.now destination_sheet.now destination_type) × (2 * size (type_at destination_half.now destination_sheet.now destination_type) ≤ length plan.old) }
    ensures { Planned source_half.now source_sheet.now destination_half.now destination_sheet.now (type_at source_half.now source_sheet.now source_type) (type_at destination_half.now destination_sheet.now destination_type) plan.old plan.new result }
{
    let bytes = type_word(destination_half, destination_type, SIZE);
    let mut entries: usize = 0;
    let mut destination_byte: usize = 0;
    // A step is as long as the leaf that was found: no range has these steps.
    while destination_byte < bytes {
        let m = match_at(
            source_half,
            source_sheet,
            source_type,
            destination_half,
            destination_sheet,
            destination_type,
            destination_byte,
        );
        entries = add_entry(plan, entries, destination_byte, m);
        destination_byte += step_of(destination_half, m);
    }
    entries
}

// The match at a byte where its leaf obeys stop; where it obeys clamp, no match, for as many bytes.
fn stop_match(
    destination_half: &[u32],
    destination_type: usize,
    destination_byte: usize,
    handling: u32,
    m: Pair,
) -> Pair
    ensures { StopMatch destination_half.now destination_type destination_byte handling m result }
{
    let obeyed = handling_at(
        destination_half,
        destination_type,
        destination_byte,
        handling,
    );
    if obeyed == CLAMP {
        return Pair::Unmatched(step_of(destination_half, m));
    }
    m
}

// The matched leaves that obey stop, in a call with this handling; how many there are.
pub fn stop_plan(
    source_half: &[u32],
    source_sheet: &[u8],
    source_type: usize,
    destination_half: &[u32],
    destination_sheet: &[u8],
    destination_type: usize,
    handling: u32,
    plan: &mut [u32],
) -> usize
    requires { WellFormed (type_at source_half.now source_sheet.now source_type) × WellFormed (type_at destination_half.now destination_sheet.now destination_type) × (2 * size (type_at destination_half.now destination_sheet.now destination_type) ≤ length plan.old) }
    ensures { (E : Datatype) → StopsOf handling (type_at destination_half.now destination_sheet.now destination_type) E → Planned source_half.now source_sheet.now destination_half.now destination_sheet.now (type_at source_half.now source_sheet.now source_type) E plan.old plan.new result }
{
    let bytes = type_word(destination_half, destination_type, SIZE);
    let mut entries: usize = 0;
    let mut byte: usize = 0;
    // A step is as long as the leaf that was found: no range has these steps.
    while byte < bytes {
        let found = match_at(
            source_half,
            source_sheet,
            source_type,
            destination_half,
            destination_sheet,
            destination_type,
            byte,
        );
        let m = stop_match(destination_half, destination_type, byte, handling, found);
        entries = add_entry(plan, entries, byte, m);
        byte += step_of(destination_half, m);
    }
    entries
}
