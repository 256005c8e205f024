// Leaves whose bytes stay as they are, and runs of entries with such leaves that adjoin in both records.
#![tactic(auto)]

ghost use Rattle.std.specs.Prelude.{◌≡◌, true, false, ◌+◌, ◌*◌, ◌≤◌, ◌<◌, length};
ghost use Rattle.table.specs.Table.{type_word, class_word};
ghost use Rattle.plans.specs.PlanWords.{one_real, to_byte, from_byte};
ghost use Rattle.same_bytes.specs.Same.{Fills, Stays, StaysAt, Adjoin};

use bits::{ByteAt, bits_of};
use layout::size_allowed;
use plan_words::entry;
use table::read::type_word;
use table::{CLASS, ENUM, OFFSET, ORDER, PRECISION, REAL, SIGN, SIZE};

// So many entries from one on, whose leaves have so many bytes.
#[derive(Clone, Copy)]
pub struct Run {
    pub entries: usize,
    pub bytes: usize,
}

// The bytes of a type whose number has all bits of its container; 0 for any other.
fn filled_bytes(half: &[u32], type_number: usize) -> usize
    ensures { (1 ≤ result → Fills half.now type_number result) × (result < 4294967296) }
{
    let size = ByteAt(type_word(half, type_number, SIZE));
    if !size_allowed(size) {
        return 0;
    }
    let whole = bits_of(size);
    if type_word(half, type_number, PRECISION) == whole.0 as usize {
        if type_word(half, type_number, OFFSET) == 0 {
            return size.0;
        }
    }
    0
}

// Whether two types have the same word at a place of their records.
fn is_same_word(
    source_half: &[u32],
    source_type: usize,
    destination_half: &[u32],
    destination_type: usize,
    place: usize,
) -> bool
    requires { place < 16 }
    ensures { result ≡ true → type_word source_half.now source_type place ≡ type_word destination_half.now destination_type place }
{
    let a = type_word(source_half, source_type, place);
    let b = type_word(destination_half, destination_type, place);
    a == b
}

// Whether a number goes from one type to the other as it is: into no enum, and not between a real and another class.
fn is_alike(
    source_half: &[u32],
    source_type: usize,
    destination_half: &[u32],
    destination_type: usize,
) -> bool
    ensures { result ≡ true → (class_word destination_half.now destination_type ≡ 2 → ⊥) × (one_real source_half.now source_type destination_half.now destination_type ≡ false) }
{
    let from = type_word(source_half, source_type, CLASS);
    let to = type_word(destination_half, destination_type, CLASS);
    if to == ENUM {
        return false;
    }
    if to == REAL {
        return from == REAL;
    }
    if from == REAL {
        return false;
    }
    true
}

// The bytes of a number that are the same in both types; 0 where they may differ.
pub fn same_bytes(
    source_half: &[u32],
    source_type: usize,
    destination_half: &[u32],
    destination_type: usize,
) -> usize
    ensures { (1 ≤ result → Stays source_half.now source_type destination_half.now destination_type result) × (result < 4294967296) }
{
    let size = filled_bytes(source_half, source_type);
    if size == 0 {
        return 0;
    }
    if filled_bytes(destination_half, destination_type) == size {
        if is_same_word(
            source_half,
            source_type,
            destination_half,
            destination_type,
            ORDER,
        ) {
            if is_same_word(
                source_half,
                source_type,
                destination_half,
                destination_type,
                SIGN,
            ) {
                if is_alike(source_half, source_type, destination_half, destination_type) {
                    return size;
                }
            }
        }
    }
    0
}

// The bytes of entry i where they stay as they are and begin at these bytes of both records, else 0.
fn bytes_at(
    plan: &[u32],
    i: usize,
    to: usize,
    from: usize,
    source_half: &[u32],
    destination_half: &[u32],
) -> usize
    requires { 2 * i + 2 ≤ length plan.now }
    ensures { (1 ≤ result → StaysAt plan.now source_half.now destination_half.now i to from result) × (result < 4294967296) }
{
    let e = entry(plan, i);
    if e.to == to {
        if e.from == from {
            return same_bytes(source_half, e.source, destination_half, e.destination);
        }
    }
    0
}

// From entry i on, the entries that stay as they are and adjoin, from these bytes of both records on.
pub fn run_from(
    plan: &[u32],
    i: usize,
    entries: usize,
    to: usize,
    from: usize,
    source_half: &[u32],
    destination_half: &[u32],
) -> Run
    requires { (2 * entries ≤ length plan.now) × (entries ≤ 4096) × (i ≤ entries) × (to < 4294967296) × (from < 4294967296) }
    ensures { (i + result.entries ≤ entries) × Adjoin plan.now source_half.now destination_half.now i to from result.entries result.bytes }
{
    let mut bytes: usize = 0;
    for k in 0..entries - i {
        let more = bytes_at(
            plan,
            i + k,
            to + bytes,
            from + bytes,
            source_half,
            destination_half,
        );
        if more == 0 {
            return Run { entries: k, bytes };
        }
        bytes += more;
    }
    Run {
        entries: entries - i,
        bytes,
    }
}

// From entry i on, the entries that stay as they are and adjoin.
pub fn run_of(
    plan: &[u32],
    i: usize,
    entries: usize,
    source_half: &[u32],
    destination_half: &[u32],
) -> Run
    requires { (2 * entries ≤ length plan.now) × (entries ≤ 4096) × (i < entries) }
    ensures { (i + result.entries ≤ entries) × Adjoin plan.now source_half.now destination_half.now i (to_byte plan.now i) (from_byte plan.now i) result.entries result.bytes }
{
    let e = entry(plan, i);
    run_from(
        plan,
        i,
        entries,
        e.to,
        e.from,
        source_half,
        destination_half,
    )
}
