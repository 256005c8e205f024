// Calls of the report that are refused, by each number.
#![tactic(auto)]

use report::report;
use shown::{show, show_answer, show_bytes};
use std::io;
use std::io::Write;

// A call on a log of one byte.
fn refused<W: Write>(
    out: &mut W,
    name: &[u8],
    source_sheet: &[u8],
    reader_sheet: &[u8],
    count: u64,
    memory: &mut [i64],
    output: &mut [u8],
    table: &mut [u32],
) -> io::Result<()> {
    let mut log = [5u8];
    let a = report(
        source_sheet,
        reader_sheet,
        count,
        &mut log,
        b"\x11",
        memory,
        output,
        table,
    );
    show(out, name)?;
    show_answer(out, a)?;
    show_bytes(out, &log)
}

// By its sheets.
fn refused_sheets<W: Write>(
    out: &mut W,
    name: &[u8],
    source_sheet: &[u8],
    reader_sheet: &[u8],
) -> io::Result<()> {
    let mut memory = [0i64; 6];
    let mut output = [0u8; 64];
    let mut table = [7u32; 8192];
    refused(
        out,
        name,
        source_sheet,
        reader_sheet,
        1,
        &mut memory,
        &mut output,
        &mut table,
    )
}

// By what is lent, where both sheets have one byte.
fn refused_lent<W: Write>(
    out: &mut W,
    name: &[u8],
    count: u64,
    memory: &mut [i64],
    output: &mut [u8],
    table: &mut [u32],
) -> io::Result<()> {
    refused(
        out,
        name,
        b"int\t1\tLE\t0\t8\tzero\tzero\tunsigned\n",
        b"int\t1\tLE\t0\t8\tzero\tzero\tunsigned\n",
        count,
        memory,
        output,
        table,
    )
}

// By the memory, with a table and an output of so much room.
fn refused_memory<W: Write>(
    out: &mut W,
    name: &[u8],
    count: u64,
    memory: &mut [i64],
    output: &mut [u8],
) -> io::Result<()> {
    let mut table = [7u32; 8192];
    refused_lent(out, name, count, memory, output, &mut table)
}

fn short_table<W: Write>(out: &mut W) -> io::Result<()> {
    let mut memory = [0i64; 6];
    let mut output = [0u8; 64];
    let mut table = [7u32; 8191];
    refused_lent(
        out,
        b"2 table of 8191 words",
        1,
        &mut memory,
        &mut output,
        &mut table,
    )
}

fn sheets<W: Write>(out: &mut W) -> io::Result<()> {
    refused_sheets(
        out,
        b"3 source sheet",
        b"int\n",
        b"int\t1\tLE\t0\t8\tzero\tzero\tunsigned\n",
    )?;
    refused_sheets(
        out,
        b"4 reader's sheet",
        b"int\t1\tLE\t0\t8\tzero\tzero\tunsigned\n",
        b"int\t1\tLE\t0\t8\tzero\tzero\tunsigned\ncomp\t0\n",
    )?;
    refused_sheets(
        out,
        b"10 channel of 33 bits",
        b"int\t1\tLE\t0\t8\tzero\tzero\tunsigned\n",
        b"int\t8\tLE\t0\t33\tzero\tzero\tunsigned\n",
    )?;
    refused_sheets(
        out,
        b"10 before 5",
        b"bits\t1\tLE\t0\t8\tzero\tzero\n",
        b"int\t8\tLE\t0\t33\tzero\tzero\tunsigned\n",
    )?;
    refused_sheets(
        out,
        b"5 int to bits",
        b"int\t1\tLE\t0\t8\tzero\tzero\tunsigned\n",
        b"bits\t1\tLE\t0\t8\tzero\tzero\n",
    )
}

// By a valve that is open or shut in the log, and only open for the reader.
fn refused_symbols<W: Write>(out: &mut W, name: &[u8], count: u64) -> io::Result<()> {
    let mut memory = [0i64; 6];
    let mut output = [0u8; 64];
    let mut table = [7u32; 8192];
    refused(
        out,
        name,
        b"int\t1\tLE\t0\t8\tzero\tzero\tunsigned\nenum\t0\nvalue\topen\t0\nvalue\tshut\t1\n",
        b"int\t1\tLE\t0\t8\tzero\tzero\tunsigned\nenum\t0\nvalue\topen\t1\n",
        count,
        &mut memory,
        &mut output,
        &mut table,
    )
}

fn symbols<W: Write>(out: &mut W) -> io::Result<()> {
    refused_symbols(out, b"12 shut is missing", 1)?;
    refused_symbols(out, b"12 without records", 0)?;
    refused_symbols(out, b"12 before 6", 65537)?;
    refused_sheets(
        out,
        b"10 before 12",
        b"int\t1\tLE\t0\t8\tzero\tzero\tunsigned\nenum\t0\nvalue\topen\t0\nvalue\tshut\t1\ncomp\t1\nmember\tvalve\t0\t1\n",
        b"int\t8\tLE\t0\t33\tzero\tzero\tunsigned\nenum\t0\nvalue\topen\t1\ncomp\t16\nmember\tvalve\t0\t1\nmember\tboost\t8\t0\n",
    )
}

fn lent<W: Write>(out: &mut W) -> io::Result<()> {
    let mut output = [0u8; 64];
    let mut memory = [0i64; 6];
    refused_memory(out, b"6 count 65537", 65537, &mut memory, &mut output)?;
    refused_memory(out, b"7 log short", 2, &mut memory, &mut output)?;
    let mut short = [0i64; 5];
    refused_memory(out, b"7 memory of 5 words", 1, &mut short, &mut output)
}

fn full<W: Write>(out: &mut W) -> io::Result<()> {
    let mut output = [0u8; 64];
    let mut held = [1048576i64, 0, 0, 0, 0, 0];
    refused_memory(out, b"11 records past the limit", 1, &mut held, &mut output)?;
    let mut negative = [0i64, 0, 0, 0, 0, -1];
    refused_memory(out, b"11 negative samples", 1, &mut negative, &mut output)?;
    let mut none = [0u8; 0];
    refused_memory(out, b"11 before 7 of the output", 1, &mut held, &mut none)
}

fn short_output<W: Write>(out: &mut W) -> io::Result<()> {
    let mut memory = [0i64; 6];
    let mut output = [0u8; 39];
    refused_memory(
        out,
        b"7 output short by one byte",
        1,
        &mut memory,
        &mut output,
    )
}

fn main(rt: HostRuntime) -> io::Result<()> {
    let mut out = io::writer(&rt);
    short_table(&mut out)?;
    sheets(&mut out)?;
    symbols(&mut out)?;
    lent(&mut out)?;
    full(&mut out)?;
    short_output(&mut out)
}
