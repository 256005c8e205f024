// How the program of the exercises prints a number written, read or converted, and what a setter answered, each beside its text.
#![tactic(auto)]

use bits::{BitAt, ByteAt, Order};
use layout::{Class, Edited, Layout, Pad};
use number::{Number, Parts};
use shown::show;
use std::io;
use std::io::Write;

fn show_number<W: Write>(out: &mut W, n: u64) -> io::Result<()> {
    write!(out, "{n}")
}

fn show_byte<W: Write>(out: &mut W, b: u8) -> io::Result<()> {
    write!(out, "{b:02x} ")
}

// The first n bytes in hex.
fn show_bytes<W: Write>(out: &mut W, bytes: &[u8], n: usize) -> io::Result<()> {
    for b in bytes.iter().take(n) {
        show_byte(out, *b)?;
    }
    Ok(())
}

fn show_kind<W: Write>(out: &mut W, kind: u32) -> io::Result<()> {
    show(out, b"kind ")?;
    show_number(out, kind as u64)?;
    show(out, b"\n")
}

// A negative number is one more than its distance from -1 below 0.
fn show_parts<W: Write>(out: &mut W, z: Parts) -> io::Result<()> {
    if z.negative {
        show(out, b"-")?;
        if z.distance < 9223372036854775808 {
            show_number(out, z.distance + 1)?;
        }
    } else {
        show_number(out, z.distance)?;
    }
    show(out, b"\n")
}

pub fn int(
    size: usize,
    order: Order,
    offset: u32,
    precision: u32,
    lsb: Pad,
    msb: Pad,
    signed: bool,
) -> Layout {
    let class = Class::Int;
    Layout {
        class,
        size: ByteAt(size),
        order,
        offset: BitAt(offset),
        precision,
        lsb,
        msb,
        signed,
    }
}

// A layout whose pads are zero.
pub fn plain(size: usize, order: Order, offset: u32, precision: u32, signed: bool) -> Layout {
    int(size, order, offset, precision, Pad::Zero, Pad::Zero, signed)
}

// The number n in the layout's place at the start of some bytes.
pub fn write<W: Write>(
    out: &mut W,
    label: &[u8],
    n: u64,
    l: Layout,
    bytes: &mut [u8],
) -> io::Result<()> {
    show(out, label)?;
    if layout::is_valid(l) {
        if l.size.0 <= bytes.len() {
            let f = fitting::fit(Number::Unsigned(n), l);
            placing::store(bytes, ByteAt(0), l, f.raw);
            show_bytes(out, bytes, l.size.0)?;
            show_kind(out, f.kind)?;
        }
    }
    Ok(())
}

// The number in the layout's place.
pub fn read<W: Write>(out: &mut W, label: &[u8], bytes: &[u8], l: Layout) -> io::Result<()> {
    show(out, label)?;
    if layout::is_valid(l) {
        if l.size.0 <= bytes.len() {
            let z = number::sign::split(one_number::read(bytes, ByteAt(0), l));
            show_parts(out, z)?;
        }
    }
    Ok(())
}

// The number in one layout's place brought into another's.
pub fn convert<W: Write>(
    out: &mut W,
    label: &[u8],
    bytes: &[u8],
    l: Layout,
    m: Layout,
    after: &mut [u8],
) -> io::Result<()> {
    show(out, label)?;
    if layout::is_valid(l) {
        if layout::is_valid(m) {
            if l.size.0 <= bytes.len() {
                if m.size.0 <= after.len() {
                    let kind = one_number::convert(bytes, ByteAt(0), l, after, ByteAt(0), m);
                    show_bytes(out, after, m.size.0)?;
                    show_kind(out, kind)?;
                }
            }
        }
    }
    Ok(())
}

// What a setter answered.
pub fn edit<W: Write>(out: &mut W, label: &[u8], e: Edited) -> io::Result<()> {
    show(out, label)?;
    let answer = e.answer;
    let l = e.layout;
    show(out, b"answer ")?;
    show_number(out, answer::number_of(answer) as u64)?;
    show(out, b", size ")?;
    show_number(out, l.size.0 as u64)?;
    show(out, b", offset ")?;
    show_number(out, l.offset.0 as u64)?;
    show(out, b", precision ")?;
    show_number(out, l.precision as u64)?;
    show(out, b"\n")
}
