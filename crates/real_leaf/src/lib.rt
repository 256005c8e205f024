// One leaf on its way between a real and another leaf: what its number becomes, and where that is written.
#![tactic(auto)]

ghost use Rattle.std.specs.Prelude.{◌≡◌, Bool, false, cond, ◌+◌, ◌^◌, ◌≤◌, ◌<◌, length};
ghost use Rattle.layout.specs.Layout.{Valid};
ghost use Rattle.number.specs.Number.{valued, number_at};
ghost use Rattle.number.specs.Place.{raw_at, stored};
ghost use Rattle.reals.specs.Convert.{int_to_real, real_to_int, real_to_int_of};
ghost use Rattle.table.specs.Table.{layout_at};
ghost use Rattle.plans.specs.PlanWords.{is_real, RealAt};
ghost use Rattle.plans.specs.LeafSteps.{real_of, real_becomes, RealReady};

use bits::{BitAt, ByteAt, Order};
use easy::{WINDOW, at, raw_by};
use entry_code::{FOURTH, SECOND, THIRD, bits_in, order_in, precision_in, shift_in, size_in};
use layout::{Class, Layout, Pad};
use number::Fitted;
use number::sign::number_of;
use placing::{raw_at, store};
use real_numbers::{to_int, to_real};
use table::codes::{flag_of, order_of};
use table::read::{layout_at, type_word};
use table::{CLASS, REAL};

// What the number of the leaf of the source type at the source byte of src becomes in a leaf of layout m: an int's where it comes from a real, else a real's.
fn real_bits(
    src: &[u8],
    source_byte: usize,
    source_type: usize,
    source_half: &[u32],
    m: Layout,
) -> Fitted
    requires { Valid (layout_at source_half.now source_type) × Valid m × (source_byte + (layout_at source_half.now source_type).size.0 ≤ length src.now) × (is_real source_half.now source_type ≡ false → m.precision ≡ 64) }
    ensures { (result ≡ cond (is_real source_half.now source_type) (real_to_int m (raw_at (layout_at source_half.now source_type) source_byte src.now)) (int_to_real (number_at (layout_at source_half.now source_type) source_byte src.now))) × (result.raw < 2 ^ m.precision) }
{
    let l = layout_at(source_half, source_type);
    let raw = raw_at(src, ByteAt(source_byte), l);
    if type_word(source_half, source_type, CLASS) == REAL {
        return to_int(raw, m);
    }
    to_real(number_of(l.signed, l.precision, raw))
}

// Converts the leaf of the source type at the source byte of src into the leaf of the destination type at the destination byte of dst, where one of the two is a real. The kind of exception is returned.
pub fn convert_real(
    src: &[u8],
    dst: &mut [u8],
    destination_byte: usize,
    source_byte: usize,
    source_type: usize,
    destination_type: usize,
    source_half: &[u32],
    destination_half: &[u32],
) -> u32
    requires { RealReady (length src.now) source_byte source_type destination_type source_half.now destination_half.now × (destination_byte + (layout_at destination_half.now destination_type).size.0 ≤ length dst.old) }
    ensures { (result ≡ (real_becomes source_half.now source_type destination_half.now destination_type source_byte src.now).kind) × (dst.new ≡ stored (layout_at destination_half.now destination_type) destination_byte (real_becomes source_half.now source_type destination_half.now destination_type source_byte src.now).raw dst.old) }
{
    let m = layout_at(destination_half, destination_type);
    let bits = real_bits(src, source_byte, source_type, source_half, m);
    store(dst, ByteAt(destination_byte), m, bits.raw);
    bits.kind
}

// What significant bits become: in an int of `bits` bits where they are a real's, else in a real, from an int of this precision. The sign is the int's.
fn fast_bits(raw: u64, from_real: bool, signed: bool, precision: u32, bits: u32) -> Fitted
    requires { (1 ≤ precision) × (precision ≤ 64) × (raw < 2 ^ precision) × (1 ≤ bits) × (bits ≤ 64) }
    ensures { result ≡ cond from_real (real_to_int_of signed bits raw) (int_to_real (valued signed precision raw)) }
{
    if from_real {
        let int = Layout {
            class: Class::Int,
            size: ByteAt(WINDOW),
            order: Order::LE,
            offset: BitAt(0),
            precision: bits,
            lsb: Pad::Zero,
            msb: Pad::Zero,
            signed,
        };
        return to_int(raw, int);
    }
    to_real(number_of(signed, precision, raw))
}

// What the number at the source byte of src becomes, by the words from word `place` on.
fn real_by(src: &[u8], source_byte: usize, words: &[u32], place: usize) -> Fitted
    requires { ((l : Layout) × (m : Layout) × (real : Bool) × RealAt l m real words.now place) × (source_byte + 8 ≤ length src.now) × (place + 4 ≤ length words.now) }
    ensures { (l m : Layout) (real : Bool) → RealAt l m real words.now place → result ≡ real_of real l m source_byte src.now }
{
    let code = at(words, place);
    let order = at(words, place + SECOND);
    let precision = precision_in(code);
    let raw = raw_by(src, source_byte, order, shift_in(code), precision);
    fast_bits(
        raw,
        flag_of(at(words, place + THIRD)),
        flag_of(at(words, place + FOURTH)),
        precision,
        bits_in(code),
    )
}

// Converts as convert_real does, by the words from word `place` on alone, where eight bytes can be read.
pub fn convert_real_fast(
    src: &[u8],
    dst: &mut [u8],
    destination_byte: usize,
    source_byte: usize,
    words: &[u32],
    place: usize,
) -> u32
    requires { ((l : Layout) × (m : Layout) × (real : Bool) × RealAt l m real words.now place × (destination_byte + m.size.0 ≤ length dst.old)) × (source_byte + 8 ≤ length src.now) × (place + 4 ≤ length words.now) }
    ensures { (l m : Layout) (real : Bool) → RealAt l m real words.now place → destination_byte + m.size.0 ≤ length dst.old → (result ≡ (real_of real l m source_byte src.now).kind) × (dst.new ≡ stored m destination_byte (real_of real l m source_byte src.now).raw dst.old) }
{
    let code = at(words, place);
    let f = real_by(src, source_byte, words, place);
    storing::store(
        dst,
        ByteAt(destination_byte),
        ByteAt(size_in(code)),
        order_of(order_in(code)),
        f.raw,
    );
    f.kind
}

// The kind of exception that the same conversion raises.
pub fn real_kind(
    src: &[u8],
    source_byte: usize,
    source_type: usize,
    destination_type: usize,
    source_half: &[u32],
    destination_half: &[u32],
) -> u32
    requires { RealReady (length src.now) source_byte source_type destination_type source_half.now destination_half.now }
    ensures { result ≡ (real_becomes source_half.now source_type destination_half.now destination_type source_byte src.now).kind }
{
    let m = layout_at(destination_half, destination_type);
    let f = real_bits(src, source_byte, source_type, source_half, m);
    f.kind
}
