// Whole calls, one for each classroom error.
#![tactic(auto)]

use convert::{convert_copying, convert_in_place, convert_in_place_plain};
use shown::{show, show_answer, show_bytes};
use std::io;
use std::io::Write;

fn case_1<W: Write>(out: &mut W) -> io::Result<()> {
    show(out, b"sign of the field")?;
    let mut written = [0x00u8, 0x00];
    let mut table = [7u32; 8192];
    let a = convert_copying(
        b"int\t2\tBE\t0\t12\tzero\tzero\tsigned\n",
        b"int\t2\tLE\t0\t16\tzero\tzero\tsigned\n",
        1,
        1,
        b"\x0f\x38",
        &mut written,
        &mut table,
    );
    show_answer(out, a)?;
    show_bytes(out, &written)
}

fn case_2<W: Write>(out: &mut W) -> io::Result<()> {
    show(out, b"growing in place")?;
    let mut written = [0x0au8, 0x0b, 0x77, 0x77];
    let mut table = [7u32; 8192];
    let a = convert_in_place(
        b"int\t1\tLE\t0\t8\tzero\tzero\tunsigned\n",
        b"int\t2\tBE\t0\t16\tzero\tzero\tunsigned\n",
        2,
        1,
        &mut written,
        b"\x00\x00\x00\x00",
        &mut table,
    );
    show_answer(out, a)?;
    show_bytes(out, &written)
}

fn case_3<W: Write>(out: &mut W) -> io::Result<()> {
    show(out, b"members by name")?;
    let mut written = [0x77u8, 0x77];
    let mut table = [7u32; 8192];
    let a = convert_copying(
        b"int\t1\tLE\t0\t8\tzero\tzero\tunsigned\ncomp\t4\nmember\ta\t0\t0\nmember\tb\t2\t0\n",
        b"int\t1\tLE\t0\t8\tzero\tzero\tunsigned\ncomp\t2\nmember\tb\t0\t0\nmember\ta\t1\t0\n",
        1,
        1,
        b"\x01\x02\x03\x04",
        &mut written,
        &mut table,
    );
    show_answer(out, a)?;
    show_bytes(out, &written)
}

fn case_4<W: Write>(out: &mut W) -> io::Result<()> {
    show(out, b"pads of the destination")?;
    let mut written = [0xffu8, 0xff];
    let mut table = [7u32; 8192];
    let a = convert_copying(
        b"int\t2\tLE\t0\t4\tzero\tone\tunsigned\n",
        b"int\t2\tLE\t0\t4\tzero\tzero\tunsigned\n",
        1,
        1,
        b"\xf5\xff",
        &mut written,
        &mut table,
    );
    show_answer(out, a)?;
    show_bytes(out, &written)
}

fn case_5<W: Write>(out: &mut W) -> io::Result<()> {
    show(out, b"symbols and not numbers")?;
    let mut written = [0x55u8, 0x55, 0x55];
    let mut table = [7u32; 8192];
    let a = convert_copying(
        b"int\t1\tLE\t0\t8\tzero\tzero\tunsigned\nenum\t0\nvalue\topen\t0\nvalue\tshut\t1\n",
        b"int\t1\tLE\t0\t8\tzero\tzero\tunsigned\nenum\t0\nvalue\topen\t1\nvalue\tshut\t0\n",
        3,
        0,
        b"\x00\x01\x07",
        &mut written,
        &mut table,
    );
    show_answer(out, a)?;
    show_bytes(out, &written)
}

fn case_6<W: Write>(out: &mut W) -> io::Result<()> {
    show(out, b"stop names the missing symbol")?;
    let mut written = [0x55u8, 0x55, 0x55];
    let mut table = [7u32; 8192];
    let a = convert_copying(
        b"int\t1\tLE\t0\t8\tzero\tzero\tunsigned\nenum\t0\nvalue\topen\t0\nvalue\tshut\t1\n",
        b"int\t1\tLE\t0\t8\tzero\tzero\tunsigned\nenum\t0\nvalue\topen\t1\nvalue\tshut\t0\n",
        3,
        1,
        b"\x00\x01\x07",
        &mut written,
        &mut table,
    );
    show_answer(out, a)?;
    show_bytes(out, &written)
}

fn case_7<W: Write>(out: &mut W) -> io::Result<()> {
    show(out, b"shrunk tail cleared")?;
    let mut written = [0x01u8, 0x02, 0x03, 0x04, 0x05, 0x06, 0x07, 0x08, 0x99];
    let mut table = [7u32; 8192];
    let a = convert_in_place_plain(
        b"int\t1\tLE\t0\t8\tzero\tzero\tunsigned\ncomp\t4\nmember\ta\t0\t0\nmember\tb\t2\t0\n",
        b"int\t1\tLE\t0\t8\tzero\tzero\tunsigned\ncomp\t1\nmember\tb\t0\t0\n",
        2,
        &mut written,
        b"\x00\x00",
        &mut table,
    );
    show_answer(out, a)?;
    show_bytes(out, &written)
}

fn main(rt: HostRuntime) -> io::Result<()> {
    let mut out = io::writer(&rt);
    case_1(&mut out)?;
    case_2(&mut out)?;
    case_3(&mut out)?;
    case_4(&mut out)?;
    case_5(&mut out)?;
    case_6(&mut out)?;
    case_7(&mut out)
}
