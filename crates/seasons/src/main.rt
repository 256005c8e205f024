// A worked season: three logs of two source sheets and one of no records, each added to one report; and a log with a double, beside a reader's double.
#![tactic(auto)]

use answer::Answer;
use report::report;
use shown::{show, show_answer, show_bytes};
use std::io;
use std::io::Write;

// The text in a buffer, up to its first byte 0.
fn show_text<W: Write>(out: &mut W, text: &[u8]) -> io::Result<()> {
    let end = text.iter().position(|b| *b == 0).unwrap_or(text.len());
    show(out, &text[..end])
}

// Word k of a memory, without its sign.
fn show_word<W: Write>(out: &mut W, memory: &[i64], k: usize) -> io::Result<()> {
    show(out, b"\t")?;
    if let Some(word) = memory.get(k) {
        let distance = word.unsigned_abs();
        write!(out, "{distance}")?;
    }
    Ok(())
}

// A call: the answer, the log's bytes, the report, and the records and exceptions that the memory holds.
fn show_added<W: Write>(
    out: &mut W,
    name: &[u8],
    a: Answer,
    log: &[u8],
    output: &[u8],
    memory: &[i64],
) -> io::Result<()> {
    show(out, name)?;
    show_answer(out, a)?;
    show_bytes(out, log)?;
    show_text(out, output)?;
    show(out, b"held")?;
    show_word(out, memory, 0)?;
    show_word(out, memory, 1)?;
    show(out, b"\n")
}

// Adds a log.
fn add<W: Write>(
    out: &mut W,
    name: &[u8],
    source_sheet: &[u8],
    count: u64,
    log: &mut [u8],
    memory: &mut [i64],
) -> io::Result<()> {
    let mut output = [0u8; 256];
    let mut table = [7u32; 8192];
    let a = report(
        source_sheet,
        b"int\t1\tLE\t0\t8\tzero\tzero\tunsigned\nint\t2\tBE\t0\t16\tzero\tzero\tsigned\nenum\t0\nvalue\topen\t1\nvalue\tshut\t0\ncomp\t5\nmember\tboost\t0\t0\nmember\toil\t1\t1\nmember\tvalve\t3\t2\nmember\tfuel\t4\t0\n",
        count,
        log,
        b"\x11\x11\x11\x11\x11\x11\x11\x11\x11\x11",
        memory,
        &mut output,
        &mut table,
    );
    show_added(out, name, a, log, &output, memory)
}

// Boost of two bytes, which can pass the reader's one; oil; a valve of other numbers; no fuel.
fn add_first<W: Write>(
    out: &mut W,
    name: &[u8],
    count: u64,
    log: &mut [u8],
    memory: &mut [i64],
) -> io::Result<()> {
    add(
        out,
        name,
        b"int\t2\tLE\t0\t16\tzero\tzero\tunsigned\nint\t1\tLE\t0\t8\tzero\tzero\tsigned\nint\t1\tLE\t0\t8\tzero\tzero\tunsigned\nenum\t2\nvalue\tshut\t1\nvalue\topen\t0\ncomp\t4\nmember\tboost\t0\t0\nmember\toil\t2\t1\nmember\tvalve\t3\t3\n",
        count,
        log,
        memory,
    )
}

// Fuel, oil of four bytes, boost and a gap; no valve.
fn add_second<W: Write>(
    out: &mut W,
    name: &[u8],
    count: u64,
    log: &mut [u8],
    memory: &mut [i64],
) -> io::Result<()> {
    add(
        out,
        name,
        b"int\t4\tBE\t0\t32\tzero\tzero\tsigned\nint\t1\tLE\t0\t8\tzero\tzero\tunsigned\ncomp\t7\nmember\tfuel\t0\t1\nmember\toil\t1\t0\nmember\tboost\t5\t1\n",
        count,
        log,
        memory,
    )
}

fn season<W: Write>(out: &mut W) -> io::Result<()> {
    let mut memory = [0i64; 14];
    let mut first = [
        0x2Cu8, 0x01, 0xFB, 0x00, 0x28, 0x00, 0x07, 0x09, 0x77, 0x77, 0x77, 0x77,
    ];
    add_first(out, b"first log", 2, &mut first, &mut memory)?;
    let mut second = [
        0x0Cu8, 0x00, 0x00, 0x9C, 0x40, 0x03, 0xEE, 0xC8, 0xFF, 0xFF, 0x80, 0x00, 0x00, 0xEE, 0x77,
        0x77,
    ];
    add_second(out, b"second log", 2, &mut second, &mut memory)?;
    let mut third = [0xE8u8, 0x03, 0x00, 0x01, 0x77, 0x77];
    add_first(
        out,
        b"third log, of the first sheet",
        1,
        &mut third,
        &mut memory,
    )?;
    let mut none = [0x77u8];
    add_second(out, b"no records", 0, &mut none, &mut memory)
}

// Boost of 255.5, read into one byte, and oil of 2^53 + 1, read into a double, which has no line.
fn reals<W: Write>(out: &mut W) -> io::Result<()> {
    let mut memory = [0i64; 6];
    let mut log = [
        0x40u8, 0x6F, 0xF0, 0x00, 0x00, 0x00, 0x00, 0x00, 0x01, 0x00, 0x00, 0x00, 0x00, 0x00, 0x20,
        0x00,
    ];
    let mut output = [0u8; 64];
    let mut table = [7u32; 8192];
    let a = report(
        b"real\t8\tBE\nint\t8\tLE\t0\t64\tzero\tzero\tunsigned\ncomp\t16\nmember\tboost\t0\t0\nmember\toil\t8\t1\n",
        b"real\t8\tLE\nint\t1\tLE\t0\t8\tzero\tzero\tunsigned\ncomp\t10\nmember\toil\t0\t0\nmember\tboost\t9\t1\n",
        1,
        &mut log,
        b"\x11\x11\x11\x11\x11\x11\x11\x11\x11\x11",
        &mut memory,
        &mut output,
        &mut table,
    );
    show_added(out, b"a log of reals", a, &log, &output, &memory)
}

fn main(rt: HostRuntime) -> io::Result<()> {
    let mut out = io::writer(&rt);
    season(&mut out)?;
    reals(&mut out)
}
