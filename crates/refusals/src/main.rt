// Whole calls that are refused, by each number from 1 HANDLING to 6 COUNT.
#![tactic(auto)]

use convert::{convert_copying, convert_in_place};
use shown::{show, show_answer, show_bytes};
use std::io;
use std::io::Write;

// A copying call, by its sheets, count and handling: the source and the destination have one byte.
fn refused<W: Write>(
    out: &mut W,
    name: &[u8],
    source_sheet: &[u8],
    destination_sheet: &[u8],
    count: u64,
    handling: u32,
) -> io::Result<()> {
    let mut written = [0x77u8];
    let mut table = [7u32; 8192];
    let a = convert_copying(
        source_sheet,
        destination_sheet,
        count,
        handling,
        b"\x05",
        &mut written,
        &mut table,
    );
    show(out, name)?;
    show_answer(out, a)?;
    show_bytes(out, &written)
}

// The table has one word too few.
fn short_table<W: Write>(out: &mut W) -> io::Result<()> {
    show(out, b"2 table of 8191 words")?;
    let mut written = [0x77u8];
    let mut table = [7u32; 8191];
    let a = convert_copying(
        b"int\t1\tLE\t0\t8\tzero\tzero\tunsigned\n",
        b"int\t1\tLE\t0\t8\tzero\tzero\tunsigned\n",
        1,
        0,
        b"\x05",
        &mut written,
        &mut table,
    );
    show_answer(out, a)?;
    show_bytes(out, &written)
}

// A call in place, whose second sheet has a compound of no bytes.
fn in_place<W: Write>(out: &mut W) -> io::Result<()> {
    show(out, b"4 destination sheet")?;
    let mut written = [0x05u8];
    let mut table = [7u32; 8192];
    let a = convert_in_place(
        b"int\t1\tLE\t0\t8\tzero\tzero\tunsigned\n",
        b"int\t1\tLE\t0\t8\tzero\tzero\tunsigned\ncomp\t0\n",
        1,
        0,
        &mut written,
        b"\x77",
        &mut table,
    );
    show_answer(out, a)?;
    show_bytes(out, &written)
}

// Arrays of other dimensions; there are no records.
fn arrays<W: Write>(
    out: &mut W,
    name: &[u8],
    source_sheet: &[u8],
    destination_sheet: &[u8],
) -> io::Result<()> {
    let mut written = [0x77u8, 0x77];
    let mut table = [7u32; 8192];
    let a = convert_copying(
        source_sheet,
        destination_sheet,
        0,
        0,
        b"\x05\x06",
        &mut written,
        &mut table,
    );
    show(out, name)?;
    show_answer(out, a)?;
    show_bytes(out, &written)
}

fn main(rt: HostRuntime) -> io::Result<()> {
    let mut out = io::writer(&rt);
    refused(
        &mut out,
        b"1 handling 2",
        b"int\t1\tLE\t0\t8\tzero\tzero\tunsigned\n",
        b"int\t1\tLE\t0\t8\tzero\tzero\tunsigned\n",
        1,
        2,
    )?;
    short_table(&mut out)?;
    refused(
        &mut out,
        b"3 source sheet",
        b"int\n",
        b"int\t1\tLE\t0\t8\tzero\tzero\tunsigned\n",
        1,
        0,
    )?;
    in_place(&mut out)?;
    refused(
        &mut out,
        b"5 int to bits",
        b"int\t1\tLE\t0\t8\tzero\tzero\tunsigned\n",
        b"bits\t1\tLE\t0\t8\tzero\tzero\n",
        1,
        0,
    )?;
    arrays(
        &mut out,
        b"5 map of 2 by 6 to 3 by 4",
        b"int\t1\tLE\t0\t8\tzero\tzero\tunsigned\narray\t0\t2\t6\n",
        b"int\t1\tLE\t0\t8\tzero\tzero\tunsigned\narray\t0\t3\t4\n",
    )?;
    arrays(
        &mut out,
        b"5 array of 6 to 6 by 1",
        b"int\t1\tLE\t0\t8\tzero\tzero\tunsigned\narray\t0\t6\n",
        b"int\t1\tLE\t0\t8\tzero\tzero\tunsigned\narray\t0\t6\t1\n",
    )?;
    refused(
        &mut out,
        b"6 count 65537",
        b"int\t1\tLE\t0\t8\tzero\tzero\tunsigned\n",
        b"int\t1\tLE\t0\t8\tzero\tzero\tunsigned\n",
        65537,
        0,
    )
}
