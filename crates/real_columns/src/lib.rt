// The same leaf of a block of records on its way between a real and another leaf: loaded, made and stored.
#![tactic(auto)]

ghost use Rattle.std.specs.Prelude.{◌≡◌, ℕ, ◌+◌, ◌-◌, ◌*◌, ◌/◌, ◌^◌, ◌<◌, ◌≤◌, true, false, length, bit_and, slice_index};
ghost use Rattle.layout.specs.Layout.{Valid};
ghost use Rattle.records.specs.Record.{raises};
ghost use Rattle.records.specs.Records.{record_at};
ghost use Rattle.table.specs.Table.{layout_at};
ghost use Rattle.plans.specs.PlanWords.{is_real};
ghost use Rattle.plans.specs.LeafSteps.{real_of};
ghost use Rattle.column_words.specs.Words.{words_of, Fits};
ghost use Rattle.blocks.specs.Blocks.{sum_to};
ghost use Rattle.real_columns.specs.Short.{short_real};
ghost use Rattle.real_columns.specs.Reals.{each_real, raised_reals, each_real_of, raised_reals_of, placed_in, real_in, int_by, real_by};

pub mod near;
pub mod short;

use bits::shift::pow2;
use column_words::{Words, words_of};
use layout::Layout;
use near::{int_near, least_of};
use number::NO_EXCEPTION;
use number::sign::number_of;
use real_numbers::to_real;
use short::{MOST_BITS, first_below, short_real};
use table::read::{layout_at, type_word};
use table::{CLASS, REAL};
use wide_loads::load_64;
use wide_stores::store_64;

// The significant bits of a container.
fn bits_in(x: u64, shift: u32, mask: u64) -> u64
    requires { shift < 64 }
    ensures { (result ≡ bit_and (x / 2 ^ shift) mask) × (result ≤ mask) }
{
    (x >> shift) & mask
}

// 1 for a kind of exception, 0 for none.
pub fn one_raised(kind: u32) -> u64
    ensures { (result ≡ raises kind) × (result ≤ 1) }
{
    if kind == NO_EXCEPTION { 0 } else { 1 }
}

// Significant bits in their place, with the pads that are one.
fn place(raw: u64, up: u32, ones: u64) -> u64
    requires { (up < 64) × (raw * 2 ^ up + ones < 2 ^ 64) }
    ensures { result ≡ raw * 2 ^ up + ones }
{
    (raw << up) + ones
}

// The reals in so many containers as ints of layout m, each in a container without its background; how many raise an exception is returned.
fn ints_each(t: &mut [u64], count: usize, w: Words, m: Layout) -> u64
    requires { (count ≤ length t.old) × (count ≤ 65536) × Fits 64 w × Valid m × (w.into ≡ 2 ^ m.precision - 1) }
    ensures { ((i : ℕ) → i < count → slice_index t.new i ≡ (int_by w.shift w.mask m (slice_index t.old i)).raw * 2 ^ w.up + w.ones) × (result ≡ sum_to (λ i. raises (int_by w.shift w.mask m (slice_index t.old i)).kind) count) × (result ≤ count) }
{
    let shift = w.shift;
    let mask = w.mask;
    let up = w.up;
    let ones = w.ones;
    let into = w.into;
    let signed = m.signed;
    let precision = m.precision;
    let least = least_of(signed, precision);
    let most = into - least;
    let mut raised: u64 = 0;
    for i in 0..count {
        let f = int_near(
            bits_in(t[i], shift, mask),
            most,
            least,
            into,
            signed,
            precision,
        );
        raised += f.raised;
        t[i] = place(f.raw, up, ones);
    }
    raised
}

// The numbers of at most 53 bits in so many containers as reals. From first on their bits are negative, out of all that there are.
fn reals_short(t: &mut [u64], count: usize, w: Words, first: u64, all: u64)
    requires { (count ≤ length t.old) × Fits 64 w × (w.into ≡ 2 ^ 64 - 1) × (w.mask ≤ all) }
    ensures { (i : ℕ) → i < count → slice_index t.new i ≡ short_real first all (bit_and (slice_index t.old i / 2 ^ w.shift) w.mask) * 2 ^ w.up + w.ones }
{
    let shift = w.shift;
    let mask = w.mask;
    let up = w.up;
    let ones = w.ones;
    for i in 0..count {
        let raw = short_real(first, all, bits_in(t[i], shift, mask));
        t[i] = place(raw, up, ones);
    }
}

// The same where numbers are so long that some are no double.
fn reals_long(t: &mut [u64], count: usize, w: Words, signed: bool, precision: u32) -> u64
    requires { (count ≤ length t.old) × (count ≤ 65536) × Fits 64 w × (1 ≤ precision) × (precision ≤ 64) × (w.mask ≡ 2 ^ precision - 1) × (w.into ≡ 2 ^ 64 - 1) }
    ensures { ((i : ℕ) → i < count → slice_index t.new i ≡ (real_by w.shift w.mask signed precision (slice_index t.old i)).raw * 2 ^ w.up + w.ones) × (result ≡ sum_to (λ i. raises (real_by w.shift w.mask signed precision (slice_index t.old i)).kind) count) × (result ≤ count) }
{
    let shift = w.shift;
    let mask = w.mask;
    let up = w.up;
    let ones = w.ones;
    let mut raised: u64 = 0;
    for i in 0..count {
        let f = to_real(number_of(signed, precision, bits_in(t[i], shift, mask)));
        raised += one_raised(f.kind);
        t[i] = place(f.raw, up, ones);
    }
    raised
}

// The numbers in so many containers as reals.
fn reals_each(t: &mut [u64], count: usize, w: Words, signed: bool, precision: u32) -> u64
    requires { (count ≤ length t.old) × (count ≤ 65536) × Fits 64 w × (1 ≤ precision) × (precision ≤ 64) × (w.mask ≡ 2 ^ precision - 1) × (w.into ≡ 2 ^ 64 - 1) }
    ensures { ((i : ℕ) → i < count → slice_index t.new i ≡ (real_by w.shift w.mask signed precision (slice_index t.old i)).raw * 2 ^ w.up + w.ones) × (result ≡ sum_to (λ i. raises (real_by w.shift w.mask signed precision (slice_index t.old i)).kind) count) × (result ≤ count) }
{
    if precision <= MOST_BITS {
        let first = first_below(signed, precision);
        reals_short(t, count, w, first, pow2(precision));
        return 0;
    }
    reals_long(t, count, w, signed, precision)
}

// So many containers of l as ones of m, without their background, where one of the two is a real's, and the source's or not.
fn make(t: &mut [u64], count: usize, from_real: bool, l: Layout, m: Layout, w: Words) -> u64
    requires { (count ≤ length t.old) × (count ≤ 65536) × Valid l × Valid m × (w ≡ words_of l m) × (from_real ≡ false → m.precision ≡ 64) }
    ensures { ((i : ℕ) → i < count → slice_index t.new i ≡ placed_in m (real_in from_real l m (slice_index t.old i)).raw) × (result ≡ sum_to (λ i. raises (real_in from_real l m (slice_index t.old i)).kind) count) × (result ≤ count) }
{
    if from_real {
        return ints_each(t, count, w, m);
    }
    reals_each(t, count, w, l.signed, l.precision)
}

// The leaf of layout l at the source byte of so many records, read and made.
fn made(
    src: &[u8],
    count: usize,
    source_size: usize,
    source_byte: usize,
    from_real: bool,
    l: Layout,
    m: Layout,
    w: Words,
    t: &mut [u64],
) -> u64
    requires { Valid l × Valid m × (w ≡ words_of l m) × (from_real ≡ false → m.precision ≡ 64) × (source_byte + l.size.0 ≤ source_size) × (count ≤ 65536) × (count ≤ length t.old) × (count * source_size ≤ length src.now) }
    ensures { ((i : ℕ) → i < count → slice_index t.new i ≡ placed_in m (real_of from_real l m source_byte (record_at source_size i src.now)).raw) × (result ≡ raised_reals_of from_real l m source_byte source_size src.now count) × (result ≤ count) }
{
    let from = l.order;
    load_64(src, source_byte, count, source_size, l.size.0, from, t);
    make(t, count, from_real, l, m, w)
}

// The same, stored to the destination byte of as many records.
fn column_of(
    src: &[u8],
    dst: &mut [u8],
    count: usize,
    source_size: usize,
    destination_size: usize,
    destination_byte: usize,
    source_byte: usize,
    from_real: bool,
    l: Layout,
    m: Layout,
    t: &mut [u64],
) -> u64
    requires { Valid l × Valid m × (from_real ≡ false → m.precision ≡ 64) × (source_byte + l.size.0 ≤ source_size) × (destination_byte + m.size.0 ≤ destination_size) × (count ≤ 65536) × (count ≤ length t.old) × (count * source_size ≤ length src.now) × (count * destination_size ≤ length dst.old) }
    ensures { (dst.new ≡ each_real_of from_real l m destination_byte source_byte source_size destination_size src.now count dst.old) × (result ≡ raised_reals_of from_real l m source_byte source_size src.now count) × (result ≤ count) }
{
    let w = words_of(l, m);
    let raised = made(src, count, source_size, source_byte, from_real, l, m, w, t);
    let to = m.order;
    store_64(
        dst,
        destination_byte,
        count,
        destination_size,
        m.size.0,
        to,
        t,
        w.keep,
    );
    raised
}

// Whether a type is a real.
fn is_real(half: &[u32], type_number: usize) -> bool
    ensures { result ≡ is_real half.now type_number }
{
    type_word(half, type_number, CLASS) == REAL
}

// The leaf of the source type at the source byte of so many source records to the destination byte of as many destination records, where one of the two types is a real; how many raise an
// exception is returned.
pub fn real_column(
    src: &[u8],
    dst: &mut [u8],
    count: usize,
    source_size: usize,
    destination_size: usize,
    destination_byte: usize,
    source_byte: usize,
    source_type: usize,
    destination_type: usize,
    source_half: &[u32],
    destination_half: &[u32],
    wide: &mut [u64],
) -> u64
    requires { Valid (layout_at source_half.now source_type) × Valid (layout_at destination_half.now destination_type) × (is_real source_half.now source_type ≡ false → (layout_at destination_half.now destination_type).precision ≡ 64) × (source_byte + (layout_at source_half.now source_type).size.0 ≤ source_size) × (destination_byte + (layout_at destination_half.now destination_type).size.0 ≤ destination_size) × (count ≤ 65536) × (count ≤ length wide.old) × (count * source_size ≤ length src.now) × (count * destination_size ≤ length dst.old) }
    ensures { (dst.new ≡ each_real source_half.now source_type destination_half.now destination_type destination_byte source_byte source_size destination_size src.now count dst.old) × (result ≡ raised_reals source_half.now source_type destination_half.now destination_type source_byte source_size src.now count) × (result ≤ count) }
{
    let from_real = is_real(source_half, source_type);
    let l = layout_at(source_half, source_type);
    let m = layout_at(destination_half, destination_type);
    column_of(
        src,
        dst,
        count,
        source_size,
        destination_size,
        destination_byte,
        source_byte,
        from_real,
        l,
        m,
        wide,
    )
}

// How many of the same leaves raise one; nothing is written but the numbers at hand.
pub fn reals_raised(
    src: &[u8],
    count: usize,
    source_size: usize,
    source_byte: usize,
    source_type: usize,
    destination_type: usize,
    source_half: &[u32],
    destination_half: &[u32],
    wide: &mut [u64],
) -> u64
    requires { Valid (layout_at source_half.now source_type) × Valid (layout_at destination_half.now destination_type) × (is_real source_half.now source_type ≡ false → (layout_at destination_half.now destination_type).precision ≡ 64) × (source_byte + (layout_at source_half.now source_type).size.0 ≤ source_size) × (count ≤ 65536) × (count ≤ length wide.old) × (count * source_size ≤ length src.now) }
    ensures { (result ≡ raised_reals source_half.now source_type destination_half.now destination_type source_byte source_size src.now count) × (result ≤ count) }
{
    let from_real = is_real(source_half, source_type);
    let l = layout_at(source_half, source_type);
    let m = layout_at(destination_half, destination_type);
    let w = words_of(l, m);
    made(
        src,
        count,
        source_size,
        source_byte,
        from_real,
        l,
        m,
        w,
        wide,
    )
}
