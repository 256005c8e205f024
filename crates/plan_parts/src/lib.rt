// The equal parts of the records of a plan that repeats.
#![tactic(auto)]

ghost use Rattle.std.specs.Prelude.{◌≡◌, true, List, ℕ, ◌+◌, ◌*◌, ◌/◌, ◌≤◌, length};
ghost use Rattle.plans.specs.PlanWords.{Ready};
ghost use Rattle.block_parts.specs.Parts.{SameWords, InParts};
ghost use Rattle.plan_parts.specs.Again.{Again, Lies, Repeats, AllLie};

use plan_words::entry;
use table::read::type_word;
use table::{SIZE, TYPE_WORDS};

// Whether y is x and so much more.
fn is_after(y: usize, x: usize, more: usize) -> bool
    ensures { result ≡ true → y ≡ x + more }
{
    if y < x {
        return false;
    }
    y - x == more
}

// Whether a leaf of so many bytes lies within a part.
fn lies_within(byte: usize, size: usize, part: usize) -> bool
    ensures { result ≡ true → byte + size ≤ part }
{
    if part < size {
        return false;
    }
    byte <= part - size
}

// Whether two types have the same words: a sheet may say one type under two numbers.
fn is_same_type(half: &[u32], x: usize, y: usize) -> bool
    ensures { result ≡ true → SameWords half.now x y }
{
    if x == y {
        return true;
    }
    for k in 0..TYPE_WORDS {
        if type_word(half, x, k) != type_word(half, y, k) {
            return false;
        }
    }
    true
}

// Whether entry i comes again, as far behind it as a part has entries, in the next part of both records.
fn comes_again(
    plan: &[u32],
    i: usize,
    part_entries: usize,
    source_part: usize,
    destination_part: usize,
    source_half: &[u32],
    destination_half: &[u32],
) -> bool
    requires { 2 * (i + part_entries) + 2 ≤ length plan.now }
    ensures { result ≡ true → Again plan.now part_entries source_part destination_part source_half.now destination_half.now i }
{
    let x = entry(plan, i);
    let y = entry(plan, i + part_entries);
    if is_after(y.to, x.to, destination_part) {
        if is_after(y.from, x.from, source_part) {
            if is_same_type(source_half, y.source, x.source) {
                return is_same_type(destination_half, y.destination, x.destination);
            }
        }
    }
    false
}

fn all_come_again(
    plan: &[u32],
    entries: usize,
    part_entries: usize,
    source_part: usize,
    destination_part: usize,
    source_half: &[u32],
    destination_half: &[u32],
) -> bool
    requires { (2 * entries ≤ length plan.now) × (entries ≤ 4096) × (part_entries ≤ entries) }
    ensures { result ≡ true → Repeats plan.now part_entries source_part destination_part source_half.now destination_half.now entries }
{
    for i in 0..entries - part_entries {
        if !comes_again(
            plan,
            i,
            part_entries,
            source_part,
            destination_part,
            source_half,
            destination_half,
        ) {
            return false;
        }
    }
    true
}

// Whether the leaves of entry i lie in the first part of both records.
fn lies_in_part(
    plan: &[u32],
    i: usize,
    source_part: usize,
    destination_part: usize,
    source_half: &[u32],
    destination_half: &[u32],
) -> bool
    requires { 2 * i + 2 ≤ length plan.now }
    ensures { result ≡ true → Lies plan.now source_part destination_part source_half.now destination_half.now i }
{
    let x = entry(plan, i);
    let source_size = type_word(source_half, x.source, SIZE);
    let destination_size = type_word(destination_half, x.destination, SIZE);
    if lies_within(x.from, source_size, source_part) {
        return lies_within(x.to, destination_size, destination_part);
    }
    false
}

fn all_lie_in_part(
    plan: &[u32],
    part_entries: usize,
    source_part: usize,
    destination_part: usize,
    source_half: &[u32],
    destination_half: &[u32],
) -> bool
    requires { (2 * part_entries ≤ length plan.now) × (part_entries ≤ 4096) }
    ensures { result ≡ true → AllLie plan.now source_part destination_part source_half.now destination_half.now part_entries }
{
    for i in 0..part_entries {
        if !lies_in_part(
            plan,
            i,
            source_part,
            destination_part,
            source_half,
            destination_half,
        ) {
            return false;
        }
    }
    true
}

// Whether both sizes and the entries fall into so many equal parts.
fn divide(parts: usize, entries: usize, source_size: usize, destination_size: usize) -> bool
    requires { 1 ≤ parts }
    ensures { result ≡ true → (source_size ≡ parts * (source_size / parts)) × (destination_size ≡ parts * (destination_size / parts)) × (entries ≡ parts * (entries / parts)) }
{
    if source_size % parts == 0 {
        if destination_size % parts == 0 {
            return entries % parts == 0;
        }
    }
    false
}

// Whether the records fall into so many equal parts.
fn are_parts(
    parts: usize,
    plan: &[u32],
    entries: usize,
    source_size: usize,
    destination_size: usize,
    source_half: &[u32],
    destination_half: &[u32],
) -> bool
    requires { (1 ≤ parts) × (parts ≤ 4096) × (2 * entries ≤ length plan.now) × (entries ≤ 4096) }
    ensures { result ≡ true → InParts parts (source_size / parts) (destination_size / parts) (entries / parts) source_size destination_size plan.now entries source_half.now destination_half.now }
{
    if divide(parts, entries, source_size, destination_size) {
        let e = entries / parts;
        let a = source_size / parts;
        let b = destination_size / parts;
        if all_come_again(plan, entries, e, a, b, source_half, destination_half) {
            return all_lie_in_part(plan, e, a, b, source_half, destination_half);
        }
    }
    false
}

// The most equal parts into which the records fall: 1 where the plan does not repeat.
pub fn parts_of(
    plan: &[u32],
    entries: usize,
    source_size: usize,
    destination_size: usize,
    source_half: &[u32],
    destination_half: &[u32],
) -> usize
    requires { (words : List ℕ) × Ready source_size destination_size plan.now entries source_half.now destination_half.now words }
    ensures { InParts result (source_size / result) (destination_size / result) (entries / result) source_size destination_size plan.now entries source_half.now destination_half.now }
{
    for e in 1..=entries / 2 {
        if entries % e == 0 {
            let parts = entries / e;
            if are_parts(
                parts,
                plan,
                entries,
                source_size,
                destination_size,
                source_half,
                destination_half,
            ) {
                return parts;
            }
        }
    }
    1
}
