// A layout as eight words, and the setters over them.
#![tactic(auto)]

ghost use Rattle.std.specs.Prelude.{◌≡◌, ◌&&◌, ◌<◌, ◌^◌, get_or};
ghost use Rattle.layout_words.specs.Codes.{class_code, order_code, pad_code, sign_code, layout_words};
ghost use Rattle.layout_words.specs.Codes.{class_of, order_of, pad_of, sign_of, is_coded, layout_of};

use bits::{BitAt, ByteAt, Order};
use layout::{Class, Layout, Pad};

pub mod setters;

// Which word has what.
const CLASS: usize = 0;

const SIZE: usize = 1;

const ORDER: usize = 2;

const OFFSET: usize = 3;

const PRECISION: usize = 4;

const LSB: usize = 5;

const MSB: usize = 6;

const SIGN: usize = 7;

// The codes of a class, an order, a pad and a sign: numbers that programs in other languages hold.
const INT: u32 = 0;

const BITS: u32 = 1;

const LE: u32 = 0;

pub const BE: u32 = 1;

const ZERO: u32 = 0;

const ONE: u32 = 1;

pub const KEEP: u32 = 2;

const UNSIGNED: u32 = 0;

pub const SIGNED: u32 = 1;

fn class_of(n: u32) -> Class
    ensures { result ≡ class_of n }
{
    if n == INT { Class::Int } else { Class::Bits }
}

pub fn order_of(n: u32) -> Order
    ensures { result ≡ order_of n }
{
    if n == LE { Order::LE } else { Order::BE }
}

pub fn pad_of(n: u32) -> Pad
    ensures { result ≡ pad_of n }
{
    if n == ZERO {
        return Pad::Zero;
    }
    if n == ONE { Pad::One } else { Pad::Keep }
}

fn class_code(class: Class) -> u32
    ensures { result ≡ class_code class }
{
    match class {
        Class::Int => INT,
        Class::Bits => BITS,
    }
}

fn order_code(order: Order) -> u32
    ensures { result ≡ order_code order }
{
    match order {
        Order::LE => LE,
        Order::BE => BE,
    }
}

fn pad_code(pad: Pad) -> u32
    ensures { result ≡ pad_code pad }
{
    match pad {
        Pad::Zero => ZERO,
        Pad::One => ONE,
        Pad::Keep => KEEP,
    }
}

fn sign_code(signed: bool) -> u32
    ensures { result ≡ sign_code signed }
{
    if signed { SIGNED } else { UNSIGNED }
}

// Both tests, as one value.
pub fn both(a: bool, b: bool) -> bool
    ensures { result ≡ (a && b) }
{
    if a { b } else { false }
}

// Whether every word that must be a code is one.
pub fn is_coded(w: [u32; 8]) -> bool
    ensures { result ≡ is_coded w }
{
    let named = both(w[CLASS] <= BITS, w[ORDER] <= BE);
    let pads = both(w[LSB] <= KEEP, w[MSB] <= KEEP);
    both(both(named, pads), w[SIGN] <= SIGNED)
}

fn wide(n: u32) -> usize
    ensures { (result ≡ n) × (result < 2 ^ 32) }
{
    n as usize
}

// The layout of eight words. Where a word is no code it is some layout, which no caller keeps.
pub fn layout_of(w: [u32; 8]) -> Layout
    ensures value { result ≡ layout_of w }
    ensures size_bound { result.size.0 < 2 ^ 32 }
{
    let class = class_of(w[CLASS]);
    let size = wide(w[SIZE]);
    let order = order_of(w[ORDER]);
    let lsb = pad_of(w[LSB]);
    let msb = pad_of(w[MSB]);
    Layout {
        class,
        size: ByteAt(size),
        order,
        offset: BitAt(w[OFFSET]),
        precision: w[PRECISION],
        lsb,
        msb,
        signed: w[SIGN] == SIGNED,
    }
}

// The words of a layout whose size fits a word.
pub fn layout_words(l: Layout) -> [u32; 8]
    requires { l.size.0 < 2 ^ 32 }
    ensures { result ≡ layout_words l }
{
    let class = l.class;
    let order = l.order;
    let lsb = l.lsb;
    let msb = l.msb;
    [
        class_code(class),
        l.size.0 as u32,
        order_code(order),
        l.offset.0,
        l.precision,
        pad_code(lsb),
        pad_code(msb),
        sign_code(l.signed),
    ]
}
