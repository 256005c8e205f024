// One leaf that is an enum: what its number becomes, and where that is written.
#![tactic(auto)]

ghost use Rattle.std.specs.Prelude.{◌≡◌, List, ℕ, ◌+◌, ◌^◌, ◌≤◌, ◌<◌, length, get_or};
ghost use Rattle.layout.specs.Layout.{Valid};
ghost use Rattle.number.specs.Place.{raw_at, stored};
ghost use Rattle.table.specs.Table.{layout_at};
ghost use Rattle.entry_code.specs.Code.{route_in};
ghost use Rattle.plans.specs.PlanWords.{translated_code, Pair, pair_becomes};
ghost use Rattle.plans.specs.LeafSteps.{EnumReady, EnumHere};

use bits::ByteAt;
use easy::{at, raw_by};
use entry_code::{
    EASY_LE, LOOKED_UP, SPAN_LE, bits_in, order_in, precision_in, route_in, shift_in, size_in,
};
use layout::Layout;
use number::NO_SYMBOL;
use number::sign::{number_of, split};
use placing::{raw_at, store};
use plans::Coded;
use row_codes::{code_bits, looked_code, span_code};
use table::codes::order_of;
use table::read::layout_at;

// The row of the destination enum for significant bits of the source type, whose layout is l, in one word.
fn raw_code(
    raw: u64,
    l: Layout,
    source_type: usize,
    destination_type: usize,
    source_half: &[u32],
    destination_half: &[u32],
    words: &[u32],
    place: usize,
) -> usize
    requires { Valid l × (l ≡ layout_at source_half.now source_type) × (raw < 2 ^ l.precision) × (place + 4 ≤ length words.now) × (4 ≤ route_in (get_or words.now place 0)) }
    ensures { (p : Pair source_type destination_type source_half.now destination_half.now words.now place) → result ≡ translated_code source_half.now p.source_text destination_half.now p.destination_text source_type destination_type raw }
{
    if route_in(at(words, place)) < LOOKED_UP {
        return span_code(words, place, raw);
    }
    let z = split(number_of(l.signed, l.precision, raw));
    looked_code(
        z,
        source_type,
        destination_type,
        source_half,
        destination_half,
        words,
    )
}

// The same for the number in the leaf of the source type at the source byte of src.
fn enum_code(
    src: &[u8],
    source_byte: usize,
    source_type: usize,
    destination_type: usize,
    source_half: &[u32],
    destination_half: &[u32],
    words: &[u32],
    place: usize,
) -> usize
    requires { EnumReady (length src.now) source_byte source_type destination_type source_half.now destination_half.now words.now place }
    ensures { (p : Pair source_type destination_type source_half.now destination_half.now words.now place) → result ≡ translated_code source_half.now p.source_text destination_half.now p.destination_text source_type destination_type (raw_at (layout_at source_half.now source_type) source_byte src.now) }
{
    let l = layout_at(source_half, source_type);
    let raw = raw_at(src, ByteAt(source_byte), l);
    raw_code(
        raw,
        l,
        source_type,
        destination_type,
        source_half,
        destination_half,
        words,
        place,
    )
}

// What that number becomes in the destination enum, of this precision.
fn enum_bits(
    src: &[u8],
    source_byte: usize,
    source_type: usize,
    destination_type: usize,
    source_half: &[u32],
    destination_half: &[u32],
    words: &[u32],
    place: usize,
    precision: u32,
) -> Coded
    requires { EnumReady (length src.now) source_byte source_type destination_type source_half.now destination_half.now words.now place × (precision ≡ (layout_at destination_half.now destination_type).precision) }
    ensures { ((p : Pair source_type destination_type source_half.now destination_half.now words.now place) → (result.raw ≡ (pair_becomes p source_byte src.now).raw) × (result.kind ≡ (pair_becomes p source_byte src.now).kind)) × (result.raw < 2 ^ (layout_at destination_half.now destination_type).precision) }
{
    code_bits(
        destination_half,
        enum_code(
            src,
            source_byte,
            source_type,
            destination_type,
            source_half,
            destination_half,
            words,
            place,
        ),
        precision,
    )
}

// Converts the leaf of the source type at the source byte of src into the leaf of the destination type, an enum, at the destination byte of dst, by the words from word `place` on. The kind of exception is returned.
pub fn convert_enum(
    src: &[u8],
    dst: &mut [u8],
    destination_byte: usize,
    source_byte: usize,
    source_type: usize,
    destination_type: usize,
    source_half: &[u32],
    destination_half: &[u32],
    words: &[u32],
    place: usize,
) -> u32
    requires { EnumReady (length src.now) source_byte source_type destination_type source_half.now destination_half.now words.now place × (destination_byte + (layout_at destination_half.now destination_type).size.0 ≤ length dst.old) }
    ensures { (p : Pair source_type destination_type source_half.now destination_half.now words.now place) → (result ≡ (pair_becomes p source_byte src.now).kind) × (dst.new ≡ stored (layout_at destination_half.now destination_type) destination_byte (pair_becomes p source_byte src.now).raw dst.old) }
{
    let m = layout_at(destination_half, destination_type);
    let bits = enum_bits(
        src,
        source_byte,
        source_type,
        destination_type,
        source_half,
        destination_half,
        words,
        place,
        m.precision,
    );
    store(dst, ByteAt(destination_byte), m, bits.raw);
    bits.kind
}

// The same where eight bytes can be read and the packed word says all.
pub fn convert_enum_fast(
    src: &[u8],
    dst: &mut [u8],
    destination_byte: usize,
    source_byte: usize,
    destination_half: &[u32],
    words: &[u32],
    place: usize,
) -> u32
    requires { (s : ℕ) × (d : ℕ) × (ws : List ℕ) × EnumHere (length src.now) (length dst.old) destination_byte source_byte s d ws destination_half.now words.now place }
    ensures { (s d : ℕ) (ws : List ℕ) → EnumHere (length src.now) (length dst.old) destination_byte source_byte s d ws destination_half.now words.now place → (p : Pair s d ws destination_half.now words.now place) → (result ≡ (pair_becomes p source_byte src.now).kind) × (dst.new ≡ stored (layout_at destination_half.now d) destination_byte (pair_becomes p source_byte src.now).raw dst.old) }
{
    let code = at(words, place);
    let order = route_in(code) + EASY_LE - SPAN_LE;
    let raw = raw_by(src, source_byte, order, shift_in(code), precision_in(code));
    let f = code_bits(
        destination_half,
        span_code(words, place, raw),
        bits_in(code),
    );
    storing::store(
        dst,
        ByteAt(destination_byte),
        ByteAt(size_in(code)),
        order_of(order_in(code)),
        f.raw,
    );
    f.kind
}

// The kind of exception that the conversion into an enum raises.
pub fn enum_kind(
    src: &[u8],
    source_byte: usize,
    source_type: usize,
    destination_type: usize,
    source_half: &[u32],
    destination_half: &[u32],
    words: &[u32],
    place: usize,
) -> u32
    requires { EnumReady (length src.now) source_byte source_type destination_type source_half.now destination_half.now words.now place }
    ensures { (p : Pair source_type destination_type source_half.now destination_half.now words.now place) → result ≡ (pair_becomes p source_byte src.now).kind }
{
    if enum_code(
        src,
        source_byte,
        source_type,
        destination_type,
        source_half,
        destination_half,
        words,
        place,
    ) == 0
    {
        NO_SYMBOL
    } else {
        0
    }
}
