// Leaves that never raise an exception and need no background: their words, worked out once a call, and their conversion by these words alone.
#![tactic(auto)]

ghost use Rattle.std.specs.Prelude.{◌≡◌, ◌+◌, ◌-◌, ◌*◌, ◌/◌, ◌%◌, ◌^◌, ◌≤◌, ◌<◌, length, get_or, take, drop, [], ◌∷◌, ◌&&◌};
ghost use Rattle.bits.specs.Container.{container, field};
ghost use Rattle.number.specs.Number.{number_at, fitted};
ghost use Rattle.number.specs.Place.{stored};
ghost use Rattle.table.specs.Words.{Reads};
ghost use Rattle.table.specs.Table.{order_of};
ghost use Rattle.table.specs.Records.{order_code};
ghost use Rattle.layout.specs.Layout.{valid, Valid};
ghost use Rattle.easy.specs.Easy.{inside, easy, shift_of, carry_of, easy_words, words_of, with_words};
ghost use Rattle.easy.specs.Words.{EasyBy, EasyAt};
ghost use Rattle.entry_code.specs.Code.{packed};

use bits::shift::ones;
use bits::{BitAt, ByteAt, Order, bits_of};
use entry_code::{
    CARRY_HIGH, CARRY_LOW, EASY_LE, FOURTH, SECOND, THIRD, order_in, pack, precision_in, route_in,
    shift_in, size_in,
};
use layout::{Layout, is_valid};
use loading::{bits_be, bits_le};
use table::codes::{order_code, order_of};

// Bytes that are read at once.
pub const WINDOW: usize = 8;

// What one of the carry's high half is worth.
const HIGH: u64 = 4294967296;

// The word at a place.
pub fn at(words: &[u32], place: usize) -> usize
    requires { place < length words.now }
    ensures { Reads (get_or words.now place 0) result }
{
    words[place] as usize
}

// Some bits of eight bytes, by the word for the order.
pub fn raw_by(src: &[u8], source_byte: usize, order: usize, shift: u32, precision: u32) -> u64
    requires { (source_byte + 8 ≤ length src.now) × (1 ≤ order) × (shift < 64) × (precision ≤ 64) }
    ensures { (result ≡ field shift precision (container (order_of (order - 1)) (take 8 (drop source_byte src.now)))) × (result < 2 ^ precision) }
{
    if order == EASY_LE {
        return bits_le(src, ByteAt(source_byte), BitAt(shift), precision);
    }
    bits_be(src, ByteAt(source_byte), BitAt(shift), precision)
}

// Converts the leaf at the source byte of src into the leaf at the destination byte of dst, by the numbers of an easy pair.
pub fn convert_by(
    src: &[u8],
    dst: &mut [u8],
    destination_byte: usize,
    source_byte: usize,
    order: usize,
    shift: u32,
    precision: u32,
    carry: u64,
    size: usize,
    into: usize,
)
    requires { ((l : Layout) × (m : Layout) × EasyBy l m order shift precision carry size into × (destination_byte + m.size.0 ≤ length dst.old)) × (source_byte + 8 ≤ length src.now) }
    ensures { (l m : Layout) → EasyBy l m order shift precision carry size into → destination_byte + m.size.0 ≤ length dst.old → dst.new ≡ stored m destination_byte (fitted m (number_at l source_byte src.now)).raw dst.old }
{
    let raw = raw_by(src, source_byte, order, shift, precision);
    let wide = raw + carry * (raw >> (precision - 1));
    storing::store(
        dst,
        ByteAt(destination_byte),
        ByteAt(size),
        order_of(into),
        wide,
    );
}

// The carry of the pair whose words stand from a place on.
pub fn carry_at(words: &[u32], place: usize) -> u64
    requires { place + 4 ≤ length words.now }
    ensures { result ≡ get_or words.now (place + 1) 0 + get_or words.now (place + 2) 0 * 4294967296 }
{
    at(words, place + CARRY_LOW) as u64 + at(words, place + CARRY_HIGH) as u64 * HIGH
}

// Converts as convert_by does, by the words from a place on.
pub fn convert_easy(
    src: &[u8],
    dst: &mut [u8],
    destination_byte: usize,
    source_byte: usize,
    words: &[u32],
    place: usize,
)
    requires { ((l : Layout) × (m : Layout) × EasyAt l m words.now place × (destination_byte + m.size.0 ≤ length dst.old)) × (source_byte + 8 ≤ length src.now) × (place + 4 ≤ length words.now) }
    ensures { (l m : Layout) → EasyAt l m words.now place → destination_byte + m.size.0 ≤ length dst.old → dst.new ≡ stored m destination_byte (fitted m (number_at l source_byte src.now)).raw dst.old }
{
    let code = at(words, place);
    let carry = carry_at(words, place);
    convert_by(
        src,
        dst,
        destination_byte,
        source_byte,
        route_in(code),
        shift_in(code),
        precision_in(code),
        carry,
        size_in(code),
        order_in(code),
    );
}

// Whether every number of p bits is one of q bits.
fn inside(signed: bool, sign: bool, p: u32, q: u32) -> bool
    ensures { result ≡ inside signed sign p q }
{
    if signed {
        if sign {
            return p <= q;
        }
        return false;
    }
    if sign {
        return p < q;
    }
    p <= q
}

// Whether a leaf from l to m never raises an exception and needs no background.
fn is_easy(l: Layout, m: Layout) -> bool
    requires { Valid m }
    ensures { result ≡ easy l m }
{
    if m.offset.0 != 0 {
        return false;
    }
    if m.precision != bits_of(m.size).0 {
        return false;
    }
    inside(l.signed, m.signed, l.precision, m.precision)
}

// How far a number lies above bit 0, where eight bytes are read from its first byte on.
pub fn shift_of(l: Layout) -> u32
    requires { Valid l }
    ensures { result ≡ shift_of l.order l.size.0 l.offset.0 }
{
    let order = l.order;
    match order {
        Order::LE => l.offset.0,
        Order::BE => bits_of(ByteAt(WINDOW)).0 - bits_of(l.size).0 + l.offset.0,
    }
}

// What a set sign bit of p bits adds to the same number in q bits.
fn carry_of(signed: bool, p: u32, q: u32) -> u64
    requires { (p ≤ q) × (q ≤ 64) }
    ensures { result ≡ carry_of signed p q }
{
    if signed { ones(q) - ones(p) } else { 0 }
}

// Writes four words from a place on.
pub fn put_four(words: &mut [u32], place: usize, a: u32, b: u32, c: u32, d: u32)
    requires { place + 4 ≤ length words.old }
    ensures { words.new ≡ with_words words.old place (a ∷ b ∷ c ∷ d ∷ []) }
{
    words[place] = a;
    words[place + SECOND] = b;
    words[place + THIRD] = c;
    words[place + FOURTH] = d;
}

// The packed word of a pair that is easy.
fn pack_easy(l: Layout, m: Layout) -> u32
    requires { Valid l × Valid m }
    ensures { result ≡ packed (1 + order_code l.order) (shift_of l.order l.size.0 l.offset.0) l.precision m.size.0 (order_code m.order) 0 }
{
    let from = l.order;
    let to = m.order;
    let shift = shift_of(l);
    let size = m.size.0 as u32;
    pack(
        EASY_LE as u32 + order_code(from),
        shift,
        l.precision,
        size,
        order_code(to),
        0,
    )
}

// The words of a pair that is easy.
fn put_easy(words: &mut [u32], place: usize, l: Layout, m: Layout)
    requires { Valid l × Valid m × (l.precision ≤ m.precision) × (place + 4 ≤ length words.old) }
    ensures { words.new ≡ with_words words.old place (words_of l m) }
{
    let code = pack_easy(l, m);
    let carry = carry_of(l.signed, l.precision, m.precision);
    let low = (carry % HIGH) as u32;
    let high = (carry / HIGH) as u32;
    put_four(words, place, code, low, high, 0);
}

// Whether l and m are valid and easy.
fn have_words(l: Layout, m: Layout) -> bool
    ensures { result ≡ (valid l && (valid m && easy l m)) }
{
    if !is_valid(l) {
        return false;
    }
    if !is_valid(m) {
        return false;
    }
    is_easy(l, m)
}

// From a place on: the words of l and m where they are valid and easy, else zeros.
pub fn put_words(words: &mut [u32], place: usize, l: Layout, m: Layout)
    requires { place + 4 ≤ length words.old }
    ensures { words.new ≡ with_words words.old place (easy_words l m) }
{
    if have_words(l, m) {
        put_easy(words, place, l, m);
        return;
    }
    put_four(words, place, 0, 0, 0, 0);
}
