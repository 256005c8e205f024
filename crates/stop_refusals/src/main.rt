// Whole calls that are refused with 8 STOP, which names the number that was given.
#![tactic(auto)]

use convert::{convert_copying, convert_copying_plain, convert_in_place, convert_in_place_plain};
use shown::{show, show_answer, show_bytes};
use std::io;
use std::io::Write;

fn case_1<W: Write>(out: &mut W) -> io::Result<()> {
    show(out, b"8 stop in record 1")?;
    let mut written = [0x55u8, 0x66];
    let mut table = [7u32; 8192];
    let a = convert_copying(
        b"int\t1\tLE\t0\t8\tzero\tzero\tunsigned\n",
        b"int\t1\tLE\t0\t8\tzero\tzero\tsigned\n",
        2,
        1,
        b"\x01\xff",
        &mut written,
        &mut table,
    );
    show_answer(out, a)?;
    show_bytes(out, &written)
}

fn case_2<W: Write>(out: &mut W) -> io::Result<()> {
    show(out, b"8 stop in place")?;
    let mut written = [0x01u8, 0x02, 0x03, 0x04, 0x05, 0x06, 0x70, 0x08];
    let mut table = [7u32; 8192];
    let a = convert_in_place(
        b"int\t1\tLE\t0\t8\tzero\tzero\tunsigned\ncomp\t4\nmember\ta\t0\t0\nmember\tb\t2\t0\n",
        b"int\t1\tLE\t0\t4\tzero\tzero\tunsigned\ncomp\t1\nmember\tb\t0\t0\n",
        2,
        1,
        &mut written,
        b"\x00\x00",
        &mut table,
    );
    show_answer(out, a)?;
    show_bytes(out, &written)
}

fn case_3<W: Write>(out: &mut W) -> io::Result<()> {
    show(out, b"8 stop at the smallest number")?;
    let mut written = [0x55u8];
    let mut table = [7u32; 8192];
    let a = convert_copying(
        b"int\t8\tBE\t0\t64\tzero\tzero\tsigned\n",
        b"int\t1\tLE\t0\t8\tzero\tzero\tunsigned\n",
        1,
        1,
        b"\x80\x00\x00\x00\x00\x00\x00\x00",
        &mut written,
        &mut table,
    );
    show_answer(out, a)?;
    show_bytes(out, &written)
}

fn case_4<W: Write>(out: &mut W) -> io::Result<()> {
    show(out, b"8 stop at a real")?;
    let mut written = [0x55u8];
    let mut table = [7u32; 8192];
    let a = convert_copying(
        b"real\t8\tBE\n",
        b"int\t1\tLE\t0\t8\tzero\tzero\tunsigned\n",
        1,
        1,
        b"\x40\x04\x00\x00\x00\x00\x00\x00",
        &mut written,
        &mut table,
    );
    show_answer(out, a)?;
    show_bytes(out, &written)
}

fn case_5<W: Write>(out: &mut W) -> io::Result<()> {
    show(out, b"8 stop without handling")?;
    let mut written = [0x55u8, 0x66];
    let mut table = [7u32; 8192];
    let a = convert_copying_plain(
        b"int\t1\tLE\t0\t8\tzero\tzero\tunsigned\n",
        b"int\t1\tLE\t0\t8\tzero\tzero\tsigned\n",
        2,
        b"\x01\xff",
        &mut written,
        &mut table,
    );
    show_answer(out, a)?;
    show_bytes(out, &written)
}

fn case_6<W: Write>(out: &mut W) -> io::Result<()> {
    show(out, b"8 stop in place without handling")?;
    let mut written = [0x01u8, 0xff];
    let mut table = [7u32; 8192];
    let a = convert_in_place_plain(
        b"int\t1\tLE\t0\t8\tzero\tzero\tunsigned\n",
        b"int\t1\tLE\t0\t8\tzero\tzero\tsigned\n",
        2,
        &mut written,
        b"\x55\x66",
        &mut table,
    );
    show_answer(out, a)?;
    show_bytes(out, &written)
}

fn case_7<W: Write>(out: &mut W) -> io::Result<()> {
    show(out, b"8 stop by a word")?;
    let mut written = [0x55u8, 0x66];
    let mut table = [7u32; 8192];
    let a = convert_copying(
        b"int\t1\tLE\t0\t8\tzero\tzero\tunsigned\ncomp\t2\nmember\toil\t0\t0\nmember\tboost\t1\t0\n",
        b"int\t1\tLE\t0\t8\tzero\tzero\tsigned\ncomp\t2\nmember\toil\t0\t0\nmember\tboost\t1\t0\tstop\n",
        1,
        0,
        b"\xc8\xc9",
        &mut written,
        &mut table,
    );
    show_answer(out, a)?;
    show_bytes(out, &written)
}

fn main(rt: HostRuntime) -> io::Result<()> {
    let mut out = io::writer(&rt);
    case_1(&mut out)?;
    case_2(&mut out)?;
    case_3(&mut out)?;
    case_4(&mut out)?;
    case_5(&mut out)?;
    case_6(&mut out)?;
    case_7(&mut out)
}
