// Layouts of atomic datatypes, and when they are valid.
#![tactic(auto)]

ghost use Rattle.std.specs.Prelude.{◌≡◌, ◌&&◌, ◌+◌, ◌*◌, ◌≤◌, leb};
ghost use Rattle.layout.specs.Layout.{may_sign, valid};

use answer::Answer;
use bits::{BitAt, ByteAt, Order, bits_of};

#[derive(Clone, Copy, PartialEq, Eq)]
pub enum Class {
    Int,
    Bits,
}

// What a write puts beside the significant bits: zeros, ones, or the background's own bits.
#[derive(Clone, Copy)]
pub enum Pad {
    Zero,
    One,
    Keep,
}

#[derive(Clone, Copy)]
pub struct Layout {
    pub class: Class,
    pub size: ByteAt,
    pub order: Order,
    pub offset: BitAt,
    pub precision: u32,
    pub lsb: Pad,
    pub msb: Pad,
    pub signed: bool,
}

// What a setter gives: done or RANGE, and the layout after it.
#[derive(Clone, Copy)]
pub struct Edited {
    pub answer: Answer,
    pub layout: Layout,
}

// A size of 1 to 8 bytes, and a precision of 1 to 64 bits.
pub fn size_allowed(size: ByteAt) -> bool
    ensures { result ≡ (leb 1 size.0 && leb size.0 8) }
{
    (1..=8).contains(&size.0)
}

pub fn precision_allowed(precision: u32) -> bool
    ensures { result ≡ (leb 1 precision && leb precision 64) }
{
    (1..=64).contains(&precision)
}

// Whether precision bits from offset on lie within size bytes. The precision is tested first, so that no difference wraps.
fn fits(offset: BitAt, precision: u32, size: ByteAt) -> bool
    requires { size.0 ≤ 8 }
    ensures { result ≡ leb (offset.0 + precision) (8 * size.0) }
{
    let whole = bits_of(size);
    precision <= whole.0 && offset.0 <= whole.0 - precision
}

// A bits number is unsigned.
fn may_sign(class: Class, signed: bool) -> bool
    ensures { result ≡ may_sign class signed }
{
    match class {
        Class::Int => true,
        Class::Bits => !signed,
    }
}

// Document 01's rules of an atomic layout.
pub fn is_valid(l: Layout) -> bool
    ensures { result ≡ valid l }
{
    size_allowed(l.size)
        && precision_allowed(l.precision)
        && fits(l.offset, l.precision, l.size)
        && may_sign(l.class, l.signed)
}
