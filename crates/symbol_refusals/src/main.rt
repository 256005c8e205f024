// Whole calls that are refused with 12 SYMBOLS, and what comes before it, and calls that it does not refuse.
#![tactic(auto)]

use convert::{convert_copying, convert_in_place_plain};
use shown::{show, show_answer, show_bytes};
use std::io;
use std::io::Write;

// A call on records that fill two bytes.
fn converted<W: Write>(
    out: &mut W,
    name: &[u8],
    source_sheet: &[u8],
    destination_sheet: &[u8],
    count: u64,
) -> io::Result<()> {
    show(out, name)?;
    let mut written = [0x77u8, 0x77];
    let mut table = [7u32; 8192];
    let a = convert_copying(
        source_sheet,
        destination_sheet,
        count,
        0,
        b"\x01\x00",
        &mut written,
        &mut table,
    );
    show_answer(out, a)?;
    show_bytes(out, &written)
}

// A valve that is open or shut, read by one that is only open.
fn lost<W: Write>(out: &mut W, name: &[u8], count: u64) -> io::Result<()> {
    converted(
        out,
        name,
        b"int\t1\tLE\t0\t8\tzero\tzero\tunsigned\nenum\t0\nvalue\topen\t0\nvalue\tshut\t1\n",
        b"int\t1\tLE\t0\t8\tzero\tzero\tunsigned\nenum\t0\nvalue\topen\t1\n",
        count,
    )
}

fn symbols<W: Write>(out: &mut W) -> io::Result<()> {
    lost(out, b"12 shut is missing", 1)?;
    lost(out, b"12 without records", 0)?;
    lost(out, b"12 before 6", 65537)?;
    lost(out, b"12 before 7", 3)?;
    converted(
        out,
        b"12 in an array of members",
        b"int\t1\tLE\t0\t8\tzero\tzero\tunsigned\nenum\t0\nvalue\topen\t0\nvalue\tshut\t1\ncomp\t1\nmember\tvalve\t0\t1\narray\t2\t2\n",
        b"int\t1\tLE\t0\t8\tzero\tzero\tunsigned\nenum\t0\nvalue\tshut\t0\nvalue\tajar\t1\ncomp\t1\nmember\tvalve\t0\t1\narray\t2\t2\n",
        1,
    )
}

fn in_place<W: Write>(out: &mut W) -> io::Result<()> {
    show(out, b"12 in place")?;
    let mut written = [0x01u8];
    let mut table = [7u32; 8192];
    let a = convert_in_place_plain(
        b"int\t1\tLE\t0\t8\tzero\tzero\tunsigned\nenum\t0\nvalue\tshut\t1\n",
        b"int\t1\tLE\t0\t8\tzero\tzero\tunsigned\nenum\t0\nvalue\topen\t1\n",
        1,
        &mut written,
        b"\x77",
        &mut table,
    );
    show_answer(out, a)?;
    show_bytes(out, &written)
}

fn path<W: Write>(out: &mut W) -> io::Result<()> {
    converted(
        out,
        b"5 before 12",
        b"int\t1\tLE\t0\t8\tzero\tzero\tunsigned\nenum\t0\nvalue\tshut\t1\ncomp\t2\nmember\tvalve\t0\t1\nmember\tboost\t1\t0\n",
        b"int\t1\tLE\t0\t8\tzero\tzero\tunsigned\nenum\t0\nvalue\topen\t1\nbits\t1\tLE\t0\t8\tzero\tzero\ncomp\t2\nmember\tvalve\t0\t1\nmember\tboost\t1\t2\n",
        1,
    )
}

fn passed<W: Write>(out: &mut W) -> io::Result<()> {
    converted(
        out,
        b"0 the enum is not matched",
        b"int\t1\tLE\t0\t8\tzero\tzero\tunsigned\nenum\t0\nvalue\topen\t0\nvalue\tshut\t1\ncomp\t2\nmember\tvalve\t0\t1\nmember\tboost\t1\t0\n",
        b"int\t1\tLE\t0\t8\tzero\tzero\tunsigned\nenum\t0\nvalue\topen\t1\ncomp\t2\nmember\tstate\t0\t1\nmember\tboost\t1\t0\n",
        1,
    )?;
    converted(
        out,
        b"0 a source without symbols",
        b"int\t1\tLE\t0\t8\tzero\tzero\tunsigned\nenum\t0\n",
        b"int\t1\tLE\t0\t8\tzero\tzero\tunsigned\nenum\t0\nvalue\topen\t1\n",
        1,
    )?;
    converted(
        out,
        b"0 a destination with one more, in another order",
        b"int\t1\tLE\t0\t8\tzero\tzero\tunsigned\nenum\t0\nvalue\topen\t0\nvalue\tshut\t1\n",
        b"int\t1\tLE\t0\t8\tzero\tzero\tunsigned\nenum\t0\nvalue\tshut\t5\nvalue\tajar\t6\nvalue\topen\t7\n",
        2,
    )
}

fn main(rt: HostRuntime) -> io::Result<()> {
    let mut out = io::writer(&rt);
    symbols(&mut out)?;
    in_place(&mut out)?;
    path(&mut out)?;
    passed(&mut out)
}
