// Whole calls that are refused with 7 ROOM, and one of no records, which is done.
#![tactic(auto)]

use convert::{convert_copying, convert_in_place, convert_in_place_plain};
use shown::{show, show_answer, show_bytes};
use std::io;
use std::io::Write;

fn case_1<W: Write>(out: &mut W) -> io::Result<()> {
    show(out, b"7 source short")?;
    let mut written = [0x77u8, 0x77];
    let mut table = [7u32; 8192];
    let a = convert_copying(
        b"int\t1\tLE\t0\t8\tzero\tzero\tunsigned\n",
        b"int\t1\tLE\t0\t8\tzero\tzero\tunsigned\n",
        2,
        0,
        b"\x05",
        &mut written,
        &mut table,
    );
    show_answer(out, a)?;
    show_bytes(out, &written)
}

fn case_2<W: Write>(out: &mut W) -> io::Result<()> {
    show(out, b"7 destination short")?;
    let mut written = [0x77u8];
    let mut table = [7u32; 8192];
    let a = convert_copying(
        b"int\t1\tLE\t0\t8\tzero\tzero\tunsigned\n",
        b"int\t2\tBE\t0\t16\tzero\tzero\tunsigned\n",
        1,
        0,
        b"\x05",
        &mut written,
        &mut table,
    );
    show_answer(out, a)?;
    show_bytes(out, &written)
}

fn case_3<W: Write>(out: &mut W) -> io::Result<()> {
    show(out, b"7 buffer short")?;
    let mut written = [0x05u8, 0x06, 0x07];
    let mut table = [7u32; 8192];
    let a = convert_in_place(
        b"int\t1\tLE\t0\t8\tzero\tzero\tunsigned\n",
        b"int\t2\tBE\t0\t16\tzero\tzero\tunsigned\n",
        2,
        0,
        &mut written,
        b"\x00\x00\x00\x00",
        &mut table,
    );
    show_answer(out, a)?;
    show_bytes(out, &written)
}

fn case_4<W: Write>(out: &mut W) -> io::Result<()> {
    show(out, b"7 background short")?;
    let mut written = [0x05u8, 0x06];
    let mut table = [7u32; 8192];
    let a = convert_in_place(
        b"int\t1\tLE\t0\t8\tzero\tzero\tunsigned\n",
        b"int\t1\tLE\t0\t8\tzero\tzero\tunsigned\n",
        2,
        0,
        &mut written,
        b"\x00",
        &mut table,
    );
    show_answer(out, a)?;
    show_bytes(out, &written)
}

fn case_5<W: Write>(out: &mut W) -> io::Result<()> {
    show(out, b"0 no records")?;
    let mut written = [0x01u8, 0x02];
    let mut table = [7u32; 8192];
    let a = convert_in_place_plain(
        b"int\t1\tLE\t0\t8\tzero\tzero\tunsigned\ncomp\t4\nmember\ta\t0\t0\nmember\tb\t2\t0\n",
        b"int\t1\tLE\t0\t8\tzero\tzero\tunsigned\ncomp\t1\nmember\tb\t0\t0\n",
        0,
        &mut written,
        b"\x00",
        &mut table,
    );
    show_answer(out, a)?;
    show_bytes(out, &written)
}

fn main(rt: HostRuntime) -> io::Result<()> {
    let mut out = io::writer(&rt);
    case_1(&mut out)?;
    case_2(&mut out)?;
    case_3(&mut out)?;
    case_4(&mut out)?;
    case_5(&mut out)
}
