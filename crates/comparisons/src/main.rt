// A worked comparison: two logs of two records that have one difference; refusals; and the list where it has just enough room.
#![tactic(auto)]

use compare::compare;
use shown::{show, show_answer};
use std::io;
use std::io::Write;

// A call: the answer, and the list's bytes as they are left.
fn compared<W: Write>(
    out: &mut W,
    name: &[u8],
    second_sheet: &[u8],
    count: u64,
    list: &mut [u8],
) -> io::Result<()> {
    let mut table = [7u32; 8192];
    let a = compare(
        b"int\t2\tBE\t0\t16\tzero\tzero\tsigned\nint\t1\tLE\t0\t8\tzero\tzero\tunsigned\nenum\t1\nvalue\topen\t0\nvalue\tshut\t1\nreal\t8\tLE\ncomp\t11\nmember\tboost\t0\t0\nmember\tvalve\t2\t2\nmember\toil\t3\t3\n",
        second_sheet,
        count,
        b"\x00\x28\x00\x00\x00\x00\x00\x00\x00\x08\x40\x01\x2C\x01\x00\x00\x00\x00\x00\x00\x00\x80",
        b"\x03\x00\x00\x00\x01\x28\x00\x00\x00\x00\x00\x2C",
        list,
        &mut table,
    );
    show(out, name)?;
    show_answer(out, a)?;
    show(out, b"\n")?;
    show(out, list)?;
    show(out, b"\n")
}

// Oil of four bytes where the first log has a real, a valve of other numbers, and boost of one byte where the first log has two.
fn compared_logs<W: Write>(
    out: &mut W,
    name: &[u8],
    count: u64,
    list: &mut [u8],
) -> io::Result<()> {
    compared(
        out,
        name,
        b"int\t1\tLE\t0\t8\tzero\tzero\tunsigned\nenum\t0\nvalue\tshut\t0\nvalue\topen\t1\nint\t4\tLE\t0\t32\tzero\tzero\tsigned\ncomp\t6\nmember\toil\t0\t2\nmember\tvalve\t4\t1\nmember\tboost\t5\t0\n",
        count,
        list,
    )
}

// Record 0 has 40, open and 3.0 in both logs. Record 1 has shut in both, -0.0 beside 0, and 300 beside 44.
fn logs<W: Write>(out: &mut W) -> io::Result<()> {
    let mut list = [46u8; 40];
    compared_logs(out, b"two records", 2, &mut list)?;
    let mut header = [46u8; 40];
    compared_logs(out, b"the first record", 1, &mut header)
}

fn refusals<W: Write>(out: &mut W) -> io::Result<()> {
    let mut list = [46u8; 40];
    compared(
        out,
        b"5 oil of bits",
        b"bits\t1\tLE\t0\t8\tzero\tzero\ncomp\t1\nmember\toil\t0\t0\n",
        2,
        &mut list,
    )?;
    compared_logs(out, b"7 logs of two records", 3, &mut list)?;
    let mut short = [46u8; 33];
    compared_logs(out, b"7 list short by one byte", 2, &mut short)?;
    let mut enough = [46u8; 34];
    compared_logs(out, b"just enough", 2, &mut enough)
}

fn main(rt: HostRuntime) -> io::Result<()> {
    let mut out = io::writer(&rt);
    logs(&mut out)?;
    refusals(&mut out)
}
