// The words by which the entries of a plan are converted, worked out once a call.
#![tactic(auto)]

ghost use Rattle.std.specs.Prelude.{◌≡◌, true, [], ◌∷◌, ℕ, ◌+◌, ◌*◌, ◌≤◌, ◌<◌, length, get_or};
ghost use Rattle.easy.specs.Easy.{with_words};
ghost use Rattle.plans.specs.PlanWords.{source_type_of, destination_type_of, words_place};
ghost use Rattle.plans.specs.PlanEntries.{PairFormed, EntryPut, EntriesPut};
ghost use Rattle.plans.specs.Spans.{EntryRoom, AllStanding};

use easy::{at, put_four};
use entry_code::{FOURTH, SECOND, THIRD};
use pair_words::put_pair;
use plan_words::entry;
use plans::{ENTRY_WORDS, NAMES, TYPES};
use std::mem;

// Entries are noted by their two types in TYPES places, with source types this far apart: pairs of the first eight types of each sheet have places of their own.
const SPREAD: usize = 8;

// Whether entry h is before entry i and has the same two types.
fn same_types(plan: &[u32], h: usize, i: usize) -> bool
    requires { 2 * i + 2 ≤ length plan.now }
    ensures { result ≡ true → (h < i) × (get_or plan.now (2 * h + 1) 0 ≡ get_or plan.now (2 * i + 1) 0) }
{
    h < i && at(plan, 2 * h + 1) == at(plan, 2 * i + 1)
}

// The words of entry h for entry i too.
fn copy_entry(words: &mut [u32], h: usize, i: usize)
    requires { (h < i) × (i < 4096) × (words_place i + 4 ≤ length words.old) }
    ensures { words.new ≡ with_words words.old (words_place i) (get_or words.old (words_place h) 0 ∷ get_or words.old (words_place h + 1) 0 ∷ get_or words.old (words_place h + 2) 0 ∷ get_or words.old (words_place h + 3) 0 ∷ []) }
{
    let place = NAMES + ENTRY_WORDS * h;
    let a = words[place];
    let b = words[place + SECOND];
    let c = words[place + THIRD];
    let d = words[place + FOURTH];
    put_four(words, NAMES + ENTRY_WORDS * i, a, b, c, d);
}

// The words of entry i: those of entry h, if it is before it and has the same types.
fn put_next(
    words: &mut [u32],
    plan: &[u32],
    h: usize,
    i: usize,
    free: usize,
    source_half: &[u32],
    source_sheet: &[u8],
    destination_half: &[u32],
    destination_sheet: &[u8],
) -> usize
    requires { (i < 4096) × (2 * i + 2 ≤ length plan.now) × PairFormed source_half.now source_sheet.now destination_half.now destination_sheet.now (source_type_of plan.now i) (destination_type_of plan.now i) × EntryRoom (length words.old) (words_place i) free }
    ensures { ((start : ℕ) → words_place i + 4 ≤ start → start ≤ free → AllStanding words.old plan.now i start free source_half.now source_sheet.now destination_half.now destination_sheet.now → EntryPut words.old (words_place i) start free source_half.now source_sheet.now destination_half.now destination_sheet.now (source_type_of plan.now i) (destination_type_of plan.now i) words.new result) × (result ≤ length words.old) }
{
    if same_types(plan, h, i) {
        copy_entry(words, h, i);
        return free;
    }
    let e = entry(plan, i);
    put_pair(
        words,
        NAMES + ENTRY_WORDS * i,
        free,
        e.source,
        e.destination,
        source_half,
        source_sheet,
        destination_half,
        destination_sheet,
    )
}

// The entry noted in the place of two types, which are in one word; entry i is noted in its stead. It is a hint: its types may be others.
fn note(last: &mut [u32; TYPES], types: usize, i: usize) -> usize
    requires { (types < 4294967296) × (i < 4096) }
    ensures { length last.new ≡ 64 }
{
    let k = (types + SPREAD * (types / TYPES)) % TYPES;
    mem::replace(&mut last[k], i as u32) as usize
}

// The words of a plan's entries.
pub fn put_entries(
    plan: &[u32],
    entries: usize,
    source_half: &[u32],
    source_sheet: &[u8],
    destination_half: &[u32],
    destination_sheet: &[u8],
    words: &mut [u32],
)
    requires { (entries ≤ 4096) × (2 * entries ≤ length plan.now) × (words_place entries ≤ length words.old) × (length words.old ≤ 65536) × ((i : ℕ) → i < entries → PairFormed source_half.now source_sheet.now destination_half.now destination_sheet.now (source_type_of plan.now i) (destination_type_of plan.now i)) }
    ensures { EntriesPut words.old plan.now entries source_half.now source_sheet.now destination_half.now destination_sheet.now words.new }
{
    let mut last = [0u32; TYPES];
    let mut free = NAMES + ENTRY_WORDS * entries;
    for i in 0..entries {
        let h = note(&mut last, at(plan, 2 * i + 1), i);
        free = put_next(
            words,
            plan,
            h,
            i,
            free,
            source_half,
            source_sheet,
            destination_half,
            destination_sheet,
        );
    }
}
