// The words of the pairs of types that a call has met: they are worked out once, and then found by the pair. A pair whose slot another has taken is worked out again.
#![tactic(auto)]

ghost use Rattle.std.specs.Prelude.{◌≡◌, ℕ, ◌+◌, ◌*◌, ◌≤◌, ◌<◌, length, get_or};
ghost use Rattle.std.proofs.Math.Seq.{paste};
ghost use Rattle.layout.specs.Layout.{Valid};
ghost use Rattle.table.specs.Table.{layout_at};
ghost use Rattle.column_words.specs.Words.{words_of};
ghost use Rattle.column_slots.specs.Slots.{slot_at, pair_word, Kept};

use column_words::{Words, words_of};
use table::codes::{order_code, order_of};
use table::read::layout_at;

// So many slots of so many words.
pub const SLOTS: usize = 64;

pub const SLOT_WORDS: usize = 16;

// What a source type counts in the word of a pair.
const PAIR: usize = 64;

// Bits of the largest container: a shift is less.
const MOST_BITS: u64 = 64;

// The words from word k on.
fn read_slot(slots: &[u64], k: usize) -> Words
    requires { k + 16 ≤ length slots.now }
    ensures { result ≡ slot_at slots.now k }
{
    Words {
        source_size: slots[k + 1] as usize,
        source_order: order_of(slots[k + 2] as usize),
        shift: (slots[k + 3] % MOST_BITS) as u32,
        mask: slots[k + 4],
        half: slots[k + 5],
        low: slots[k + 6],
        high: slots[k + 7],
        into: slots[k + 8],
        up: (slots[k + 9] % MOST_BITS) as u32,
        ones: slots[k + 10],
        keep: slots[k + 11],
        size: slots[k + 12] as usize,
        order: order_of(slots[k + 13] as usize),
    }
}

// The words of r from word k on.
fn put(slots: &mut [u64], k: usize, r: &[u64])
    requires { k + length r.now ≤ length slots.old }
    ensures { slots.new ≡ paste slots.old k r.now (length r.now) }
{
    slots[k..k + r.len()].copy_from_slice(r);
}

// The words of a pair, from word k on.
fn put_slot(slots: &mut [u64], k: usize, pair: u64, w: Words)
    requires { (k + 16 ≤ length slots.old) × (w.shift < 64) × (w.up < 64) }
    ensures { (get_or slots.new k 0 ≡ pair) × (slot_at slots.new k ≡ w) × ((j : ℕ) → j < k → get_or slots.new j 0 ≡ get_or slots.old j 0) × ((j : ℕ) → k + 16 ≤ j → get_or slots.new j 0 ≡ get_or slots.old j 0) }
{
    let from = w.source_order;
    let to = w.order;
    let source_code = order_code(from) as u64;
    let code = order_code(to) as u64;
    let r = [
        pair,
        w.source_size as u64,
        source_code,
        w.shift as u64,
        w.mask,
        w.half,
        w.low,
        w.high,
        w.into,
        w.up as u64,
        w.ones,
        w.keep,
        w.size as u64,
        code,
    ];
    put(slots, k, &r);
}

// The words of a source type and a destination type.
pub fn words_for(
    slots: &mut [u64],
    source_type: usize,
    destination_type: usize,
    source_half: &[u32],
    destination_half: &[u32],
) -> Words
    requires { Kept slots.old source_half.now destination_half.now × (1024 ≤ length slots.old) × (source_type < 4294967296) × (destination_type < 64) × Valid (layout_at source_half.now source_type) × Valid (layout_at destination_half.now destination_type) }
    ensures { (result ≡ words_of (layout_at source_half.now source_type) (layout_at destination_half.now destination_type)) × Kept slots.new source_half.now destination_half.now }
{
    let pair = (PAIR * source_type + destination_type + 1) as u64;
    let k = SLOT_WORDS * ((source_type + 2 * destination_type) % SLOTS);
    if slots[k] == pair {
        return read_slot(slots, k);
    }
    let l = layout_at(source_half, source_type);
    let m = layout_at(destination_half, destination_type);
    let w = words_of(l, m);
    put_slot(slots, k, pair, w);
    w
}
