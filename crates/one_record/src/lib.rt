// One record, by the plan's entries.
#![tactic(auto)]

ghost use Rattle.std.specs.Prelude.{◌≡◌, ℕ, ◌+◌, ◌*◌, ◌≤◌, ◌<◌, length, get_or};
ghost use Rattle.records.specs.Record.{raises};
ghost use Rattle.records.specs.Plan.{written, raised_by, first_by};
ghost use Rattle.number.specs.Place.{stored};
ghost use Rattle.table.specs.Table.{layout_at};
ghost use Rattle.plans.specs.PlanWords.{words_place, Pair, pair_becomes, Ready, entries_of};
ghost use Rattle.entry_code.specs.Code.{route_in};
ghost use Rattle.plans.specs.PlanEntries.{EntryReady, raising_of};
ghost use Rattle.plans.specs.LeafSteps.{real_becomes};

use easy::{at, convert_easy};
use entry_code::{GENERAL, REAL, SECOND, SPAN, SPAN_LE, route_in};
use enum_leaf::{convert_enum, convert_enum_fast, enum_kind};
use given_leaf::given_at;
use number_leaf::{convert_number, number_kind};
use plan_words::entry;
use plans::{ENTRY_WORDS, LeafException, NAMES, PlanEntry};
use real_leaf::{convert_real, convert_real_fast, real_kind};

// Where the words of entry i begin.
fn words_of(i: usize) -> usize
    requires { i < 4096 }
    ensures { result ≡ words_place i }
{
    NAMES + ENTRY_WORDS * i
}

// Converts the leaf of entry i, which is e, where one of its types is a real: by its words where they say all and eight bytes can be read. The kind of exception is returned.
fn write_real(
    src: &[u8],
    dst: &mut [u8],
    e: PlanEntry,
    i: usize,
    source_half: &[u32],
    destination_half: &[u32],
    words: &[u32],
) -> u32
    requires { EntryReady (length src.now) (length dst.old) e i source_half.now destination_half.now words.now × (i < 4096) × (route_in (get_or words.now (words_place i) 0) ≡ 3) }
    ensures { (result ≡ (real_becomes source_half.now e.source destination_half.now e.destination e.from src.now).kind) × (dst.new ≡ stored (layout_at destination_half.now e.destination) e.to (real_becomes source_half.now e.source destination_half.now e.destination e.from src.now).raw dst.old) }
{
    let place = words_of(i);
    if at(words, place + SECOND) != 0 {
        if 8 <= src.len() - e.from {
            return convert_real_fast(src, dst, e.to, e.from, words, place);
        }
    }
    convert_real(
        src,
        dst,
        e.to,
        e.from,
        e.source,
        e.destination,
        source_half,
        destination_half,
    )
}

// Converts the leaf of entry i, which is e and no enum: by its words where it is easy and eight bytes can be read. The kind of exception is returned.
fn write_number(
    src: &[u8],
    dst: &mut [u8],
    e: PlanEntry,
    i: usize,
    source_half: &[u32],
    destination_half: &[u32],
    words: &[u32],
) -> u32
    requires { EntryReady (length src.now) (length dst.old) e i source_half.now destination_half.now words.now × (i < 4096) × (route_in (get_or words.now (words_place i) 0) < 4) }
    ensures { (p : Pair e.source e.destination source_half.now destination_half.now words.now (words_place i)) → (result ≡ (pair_becomes p e.from src.now).kind) × (dst.new ≡ stored (layout_at destination_half.now e.destination) e.to (pair_becomes p e.from src.now).raw dst.old) }
{
    let place = words_of(i);
    let route = route_in(at(words, place));
    if route == REAL {
        return write_real(src, dst, e, i, source_half, destination_half, words);
    }
    if route != GENERAL {
        if 8 <= src.len() - e.from {
            convert_easy(src, dst, e.to, e.from, words, place);
            return 0;
        }
    }
    convert_number(
        src,
        dst,
        e.to,
        e.from,
        e.source,
        e.destination,
        source_half,
        destination_half,
    )
}

// The same of an enum: by its packed word where that says all and eight bytes can be read.
fn write_enum(
    src: &[u8],
    dst: &mut [u8],
    e: PlanEntry,
    i: usize,
    source_half: &[u32],
    destination_half: &[u32],
    words: &[u32],
) -> u32
    requires { EntryReady (length src.now) (length dst.old) e i source_half.now destination_half.now words.now × (i < 4096) × (4 ≤ route_in (get_or words.now (words_place i) 0)) }
    ensures { (p : Pair e.source e.destination source_half.now destination_half.now words.now (words_place i)) → (result ≡ (pair_becomes p e.from src.now).kind) × (dst.new ≡ stored (layout_at destination_half.now e.destination) e.to (pair_becomes p e.from src.now).raw dst.old) }
{
    let place = words_of(i);
    if route_in(at(words, place)) < SPAN {
        if 8 <= src.len() - e.from {
            return convert_enum_fast(src, dst, e.to, e.from, destination_half, words, place);
        }
    }
    convert_enum(
        src,
        dst,
        e.to,
        e.from,
        e.source,
        e.destination,
        source_half,
        destination_half,
        words,
        place,
    )
}

// Converts the leaf of entry i, which is e. The kind of exception is returned.
fn write_entry(
    src: &[u8],
    dst: &mut [u8],
    e: PlanEntry,
    i: usize,
    source_half: &[u32],
    destination_half: &[u32],
    words: &[u32],
) -> u32
    requires { EntryReady (length src.now) (length dst.old) e i source_half.now destination_half.now words.now }
    ensures { (p : Pair e.source e.destination source_half.now destination_half.now words.now (words_place i)) → (result ≡ (pair_becomes p e.from src.now).kind) × (dst.new ≡ stored (layout_at destination_half.now e.destination) e.to (pair_becomes p e.from src.now).raw dst.old) }
{
    if route_in(at(words, words_of(i))) < SPAN_LE {
        return write_number(src, dst, e, i, source_half, destination_half, words);
    }
    write_enum(src, dst, e, i, source_half, destination_half, words)
}

// The kind of exception that the leaf of entry i raises: an easy one raises none.
fn entry_kind(
    src: &[u8],
    e: PlanEntry,
    i: usize,
    source_half: &[u32],
    destination_half: &[u32],
    words: &[u32],
) -> u32
    requires { (d : ℕ) × EntryReady (length src.now) d e i source_half.now destination_half.now words.now }
    ensures { (p : Pair e.source e.destination source_half.now destination_half.now words.now (words_place i)) → result ≡ (pair_becomes p e.from src.now).kind }
{
    let place = words_of(i);
    let route = route_in(at(words, place));
    if SPAN_LE <= route {
        return enum_kind(
            src,
            e.from,
            e.source,
            e.destination,
            source_half,
            destination_half,
            words,
            place,
        );
    }
    if route == REAL {
        return real_kind(
            src,
            e.from,
            e.source,
            e.destination,
            source_half,
            destination_half,
        );
    }
    if route != GENERAL {
        return 0;
    }
    number_kind(
        src,
        e.from,
        e.source,
        e.destination,
        source_half,
        destination_half,
    )
}

// 1 where an exception was raised.
fn counted(kind: u32) -> u64
    ensures { (result ≡ raises kind) × (result ≤ 1) }
{
    if kind == 0 { 0 } else { 1 }
}

// Writes the plan's leaves of the source record src over the destination record dst, and counts the exceptions.
pub fn write_record(
    src: &[u8],
    dst: &mut [u8],
    plan: &[u32],
    entries: usize,
    source_half: &[u32],
    destination_half: &[u32],
    words: &[u32],
) -> u64
    requires { Ready (length src.now) (length dst.old) plan.now entries source_half.now destination_half.now words.now }
    ensures { (p : Ready (length src.now) (length dst.old) plan.now entries source_half.now destination_half.now words.now) → (dst.new ≡ written (entries_of p) src.now dst.old) × (result ≡ raised_by (entries_of p) src.now) }
{
    let mut raised: u64 = 0;
    for i in 0..entries {
        let e = entry(plan, i);
        let kind = write_entry(src, dst, e, i, source_half, destination_half, words);
        raised += counted(kind);
    }
    raised
}

// The first of the plan's leaves that raises an exception.
pub fn first_raising(
    src: &[u8],
    plan: &[u32],
    entries: usize,
    source_half: &[u32],
    destination_half: &[u32],
    words: &[u32],
) -> Option<LeafException>
    requires { (d : ℕ) × Ready (length src.now) d plan.now entries source_half.now destination_half.now words.now }
    ensures { (d : ℕ) (p : Ready (length src.now) d plan.now entries source_half.now destination_half.now words.now) → result ≡ raising_of (first_by (entries_of p) src.now) }
{
    for i in 0..entries {
        let e = entry(plan, i);
        let byte = e.to as u32;
        let kind = entry_kind(src, e, i, source_half, destination_half, words);
        if kind != 0 {
            let given = given_at(src, e.from, e.source, source_half);
            return Some(LeafException { byte, kind, given });
        }
    }
    None
}
