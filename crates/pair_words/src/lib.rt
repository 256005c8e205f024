// The four words by which the leaf of an entry is converted, for one pair of types, and the span of its enums.
#![tactic(auto)]

ghost use Rattle.std.specs.Prelude.{◌≡◌, cond, ◌&&◌, ◌+◌, ◌*◌, ◌≤◌, ◌<◌, eqb, length};
ghost use Rattle.layout.specs.Layout.{Valid};
ghost use Rattle.table.specs.Table.{class_word, layout_at};
ghost use Rattle.table.specs.Records.{order_code};
ghost use Rattle.entry_code.specs.Code.{packed};
ghost use Rattle.easy.specs.Easy.{shift_of, with_words};
ghost use Rattle.plans.specs.PlanWords.{is_real, one_real};
ghost use Rattle.plans.specs.PlanEntries.{PairFormed, real_words, plain_words, EntryPut};
ghost use Rattle.plans.specs.Spans.{SpanWord, EntryRoom};

use bits::bits_of;
use easy::{put_four, put_words, shift_of};
use entry_code::{EASY_LE, LOOKED_UP, REAL, SPAN, SPAN_LE, pack};
use enum_spans::{Span, put_span, span_of};
use layout::Layout;
use table::codes::{flag_code, order_code};
use table::read::{layout_at, type_word};
use table::{CLASS, ENUM};

// The packed word of an entry from l to m, of this route.
fn route_word(route: u32, l: Layout, m: Layout) -> u32
    requires { (route < 8) × Valid l × Valid m }
    ensures { result ≡ packed route (shift_of l.order l.size.0 l.offset.0) l.precision m.size.0 (order_code m.order) m.precision }
{
    let to = m.order;
    let shift = shift_of(l);
    let size = m.size.0 as u32;
    pack(route, shift, l.precision, size, order_code(to), m.precision)
}

// The packed word of two enums that go by a span, where m has no bits beside its number.
fn fast_word(l: Layout, m: Layout) -> u32
    requires { Valid l × Valid m }
    ensures { result ≡ packed (4 + order_code l.order) (shift_of l.order l.size.0 l.offset.0) l.precision m.size.0 (order_code m.order) m.precision }
{
    let from = l.order;
    route_word(SPAN_LE as u32 + order_code(from), l, m)
}

// The packed word of any two enums that go by a span.
fn span_word(
    source_half: &[u32],
    source_type: usize,
    destination_half: &[u32],
    destination_type: usize,
) -> u32
    requires { Valid (layout_at source_half.now source_type) × Valid (layout_at destination_half.now destination_type) }
    ensures { SpanWord (layout_at source_half.now source_type) (layout_at destination_half.now destination_type) result }
{
    let m = layout_at(destination_half, destination_type);
    if m.offset.0 != 0 {
        return SPAN as u32;
    }
    if m.precision != bits_of(m.size).0 {
        return SPAN as u32;
    }
    fast_word(layout_at(source_half, source_type), m)
}

// The words of an entry from the source type to an enum, from word `place` on, and its span from word `free` on. The next free word is returned.
fn put_enum(
    words: &mut [u32],
    place: usize,
    free: usize,
    source_type: usize,
    destination_type: usize,
    source_half: &[u32],
    source_sheet: &[u8],
    destination_half: &[u32],
    destination_sheet: &[u8],
) -> usize
    requires { PairFormed source_half.now source_sheet.now destination_half.now destination_sheet.now source_type destination_type × (class_word destination_half.now destination_type ≡ 2) × EntryRoom (length words.old) place free }
    ensures { EntryPut words.old place free free source_half.now source_sheet.now destination_half.now destination_sheet.now source_type destination_type words.new result × (result ≤ length words.old) }
{
    let Some(Span { low, count }) = span_of(source_half, source_type, words.len() - free) else {
        put_four(words, place, LOOKED_UP as u32, 0, 0, 0);
        return free;
    };
    let code = span_word(source_half, source_type, destination_half, destination_type);
    put_four(words, place, code, low, count, free as u32);
    put_span(
        words,
        free,
        low,
        count,
        source_half,
        source_sheet,
        destination_half,
        destination_sheet,
        source_type,
        destination_type,
    );
    free + count as usize
}

// The type is a real.
fn is_real(half: &[u32], k: usize) -> bool
    ensures { result ≡ is_real half.now k }
{
    type_word(half, k, CLASS) == table::REAL
}

// Of the two types, one is a real and the other is none.
fn is_one_real(
    source_half: &[u32],
    source_type: usize,
    destination_half: &[u32],
    destination_type: usize,
) -> bool
    ensures { result ≡ one_real source_half.now source_type destination_half.now destination_type }
{
    let from = type_word(source_half, source_type, CLASS);
    let to = type_word(destination_half, destination_type, CLASS);
    if from == table::REAL {
        to != table::REAL
    } else {
        to == table::REAL
    }
}

// Whether m has no bits beside its number.
fn is_whole(m: Layout) -> bool
    requires { Valid m }
    ensures { result ≡ (eqb m.offset.0 0 && eqb m.precision (8 * m.size.0)) }
{
    if m.offset.0 != 0 {
        return false;
    }
    m.precision == bits_of(m.size).0
}

// The sign of the int, where one of l and m is a real's: the source's or not.
fn sign_beside(l: Layout, m: Layout, from_real: bool) -> bool
    ensures { result ≡ cond from_real m.signed l.signed }
{
    if from_real { m.signed } else { l.signed }
}

// The words of an entry from l to m, where one of them is a real's: the source's or not.
fn put_real(words: &mut [u32], place: usize, l: Layout, m: Layout, from_real: bool)
    requires { Valid l × Valid m × (place + 4 ≤ length words.old) }
    ensures { words.new ≡ with_words words.old place (real_words l m from_real) }
{
    if is_whole(m) {
        let code = route_word(REAL as u32, l, m);
        let order = l.order;
        put_four(
            words,
            place,
            code,
            EASY_LE as u32 + order_code(order),
            flag_code(from_real),
            flag_code(sign_beside(l, m, from_real)),
        );
        return;
    }
    put_four(words, place, REAL as u32, 0, 0, 0);
}

// The words of an entry from the source type to a destination type that is no enum, from word `place` on.
fn put_plain(
    words: &mut [u32],
    place: usize,
    source_type: usize,
    destination_type: usize,
    source_half: &[u32],
    destination_half: &[u32],
)
    requires { Valid (layout_at source_half.now source_type) × Valid (layout_at destination_half.now destination_type) × (place + 4 ≤ length words.old) }
    ensures { words.new ≡ with_words words.old place (plain_words source_half.now source_type destination_half.now destination_type) }
{
    let l = layout_at(source_half, source_type);
    let m = layout_at(destination_half, destination_type);
    if is_one_real(source_half, source_type, destination_half, destination_type) {
        let from_real = is_real(source_half, source_type);
        put_real(words, place, l, m, from_real);
        return;
    }
    put_words(words, place, l, m);
}

// The words of an entry from the source type to the destination type, from word `place` on, and the span of an enum from word `free` on. The next free word is returned.
pub fn put_pair(
    words: &mut [u32],
    place: usize,
    free: usize,
    source_type: usize,
    destination_type: usize,
    source_half: &[u32],
    source_sheet: &[u8],
    destination_half: &[u32],
    destination_sheet: &[u8],
) -> usize
    requires { PairFormed source_half.now source_sheet.now destination_half.now destination_sheet.now source_type destination_type × EntryRoom (length words.old) place free }
    ensures { EntryPut words.old place free free source_half.now source_sheet.now destination_half.now destination_sheet.now source_type destination_type words.new result × (result ≤ length words.old) }
{
    if type_word(destination_half, destination_type, CLASS) == ENUM {
        return put_enum(
            words,
            place,
            free,
            source_type,
            destination_type,
            source_half,
            source_sheet,
            destination_half,
            destination_sheet,
        );
    }
    put_plain(
        words,
        place,
        source_type,
        destination_type,
        source_half,
        destination_half,
    );
    free
}
