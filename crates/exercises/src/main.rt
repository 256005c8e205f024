// Runs exercises of documents 01 and 02 through the code, and prints each answer beside its text.
#![tactic(auto)]

use bits::{BitAt, ByteAt, Order};
use layout::Pad;
use numbers_shown::{convert, edit, int, plain, read, write};
use place_setters::{set_field, set_size};
use shown::show;
use std::io;
use std::io::Write;

fn placements<W: Write>(out: &mut W) -> io::Result<()> {
    let mut bytes = [0u8; 4];
    write(
        out,
        b"4386, 4 bytes BE, offset 16: ",
        4386,
        plain(4, Order::BE, 16, 16, false),
        &mut bytes,
    )?;
    write(
        out,
        b"4386, 4 bytes LE, offset 16: ",
        4386,
        plain(4, Order::LE, 16, 16, false),
        &mut bytes,
    )?;
    write(
        out,
        b"4386, 4 bytes BE, offset 0: ",
        4386,
        plain(4, Order::BE, 0, 16, false),
        &mut bytes,
    )?;
    write(
        out,
        b"5, 2 bytes LE, precision 4, msb one: ",
        5,
        int(2, Order::LE, 0, 4, Pad::Zero, Pad::One, false),
        &mut bytes,
    )?;
    let mut background = [0xc3u8; 1];
    write(
        out,
        b"5, 1 byte, offset 2, both keep over C3: ",
        5,
        int(1, Order::LE, 2, 4, Pad::Keep, Pad::Keep, false),
        &mut background,
    )
}

fn conversions<W: Write>(out: &mut W) -> io::Result<()> {
    let byte = plain(1, Order::LE, 0, 8, false);
    let signed = plain(1, Order::LE, 0, 8, true);
    let twelve = plain(2, Order::BE, 4, 12, true);
    let mut after = [0u8; 2];
    read(
        out,
        b"F3 80, BE, offset 4, precision 12, signed: ",
        b"\xf3\x80",
        twelve,
    )?;
    read(
        out,
        b"0F 38, BE, offset 0, precision 12, signed: ",
        b"\x0f\x38",
        plain(2, Order::BE, 0, 12, true),
    )?;
    convert(
        out,
        b"F3 80 to signed 1 byte: ",
        b"\xf3\x80",
        twelve,
        signed,
        &mut after,
    )?;
    convert(
        out,
        b"FF signed to unsigned 2 bytes: ",
        b"\xff",
        signed,
        plain(2, Order::LE, 0, 16, false),
        &mut after,
    )?;
    convert(
        out,
        b"FF unsigned to signed: ",
        b"\xff",
        byte,
        signed,
        &mut after,
    )?;
    convert(
        out,
        b"7F unsigned to signed: ",
        b"\x7f",
        byte,
        signed,
        &mut after,
    )
}

fn edits<W: Write>(out: &mut W) -> io::Result<()> {
    let l = plain(4, Order::LE, 16, 16, false);
    edit(out, b"size 3: ", set_size(l, ByteAt(3)))?;
    edit(out, b"size 1: ", set_size(l, ByteAt(1)))?;
    edit(out, b"field 12, 20: ", set_field(l, BitAt(12), 20))?;
    edit(out, b"field 0, 40: ", set_field(l, BitAt(0), 40))?;
    edit(out, b"field 48, 16: ", set_field(l, BitAt(48), 16))?;
    edit(out, b"field 49, 16: ", set_field(l, BitAt(49), 16))
}

// The last field decides, and an earlier one shows in the size alone.
fn fields<W: Write>(out: &mut W) -> io::Result<()> {
    let l = plain(1, Order::LE, 0, 8, false);
    let first = set_field(l, BitAt(0), 40);
    let wide = first.layout;
    edit(
        out,
        b"field 0, 40, then 0, 8: ",
        set_field(wide, BitAt(0), 8),
    )?;
    edit(out, b"field 0, 8 alone: ", set_field(l, BitAt(0), 8))
}

fn main(rt: HostRuntime) -> io::Result<()> {
    let mut out = io::writer(&rt);
    placements(&mut out)?;
    conversions(&mut out)?;
    show(&mut out, b"From size 4, offset 16, precision 16:\n")?;
    edits(&mut out)?;
    show(&mut out, b"From size 1, offset 0, precision 8:\n")?;
    fields(&mut out)
}
