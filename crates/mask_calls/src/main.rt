// Worked calls for the mask: fields of either byte order, an enum, a real, a member that the destination lacks and a gap; and refusals.
#![tactic(auto)]

use reach::reach;
use shown::{show, show_answer, show_bytes};
use std::io;
use std::io::Write;

// A call: the answer, and the mask's bytes as they are left. Oil is 10 bits of two bytes, little-endian, boost the same big-endian, valve an enum, temp a byte; bytes 6 and 7 are a gap; torque
// is a real.
fn reached<W: Write>(
    out: &mut W,
    name: &[u8],
    destination_sheet: &[u8],
    mask: &mut [u8],
) -> io::Result<()> {
    let mut table = [7u32; 8192];
    let a = reach(
        b"int\t2\tLE\t2\t10\tzero\tzero\tunsigned\nint\t2\tBE\t2\t10\tzero\tzero\tunsigned\nint\t1\tLE\t0\t8\tzero\tzero\tunsigned\nenum\t2\nvalue\topen\t0\nvalue\tshut\t1\nreal\t8\tBE\ncomp\t16\nmember\toil\t0\t0\nmember\tboost\t2\t1\nmember\tvalve\t4\t3\nmember\ttemp\t5\t2\nmember\ttorque\t8\t4\n",
        destination_sheet,
        mask,
        &mut table,
    );
    show(out, name)?;
    show_answer(out, a)?;
    show_bytes(out, mask)
}

// Everything but temp, as ints of two bytes and an enum with other numbers and one symbol more.
fn reached_most<W: Write>(out: &mut W, name: &[u8], mask: &mut [u8]) -> io::Result<()> {
    reached(
        out,
        name,
        b"int\t2\tBE\t0\t16\tzero\tzero\tunsigned\nint\t1\tLE\t0\t8\tzero\tzero\tunsigned\nenum\t1\nvalue\tshut\t0\nvalue\topen\t1\nvalue\thalf\t2\ncomp\t7\nmember\tvalve\t0\t2\nmember\toil\t1\t0\nmember\tboost\t3\t0\nmember\ttorque\t5\t0\n",
        mask,
    )
}

fn masks<W: Write>(out: &mut W) -> io::Result<()> {
    let mut behind = [46u8; 18];
    reached_most(out, b"all but temp", &mut behind)?;
    let mut temp = [46u8; 16];
    reached(
        out,
        b"temp alone",
        b"int\t1\tLE\t4\t4\tzero\tzero\tsigned\ncomp\t1\nmember\ttemp\t0\t0\n",
        &mut temp,
    )
}

fn refusals<W: Write>(out: &mut W) -> io::Result<()> {
    let mut mask = [46u8; 16];
    reached(
        out,
        b"5 oil of bits",
        b"bits\t1\tLE\t0\t8\tzero\tzero\ncomp\t1\nmember\toil\t0\t0\n",
        &mut mask,
    )?;
    reached(
        out,
        b"12 no shut",
        b"int\t1\tLE\t0\t8\tzero\tzero\tunsigned\nenum\t0\nvalue\topen\t0\ncomp\t1\nmember\tvalve\t0\t1\n",
        &mut mask,
    )?;
    let mut short = [46u8; 15];
    reached_most(out, b"7 mask short by one byte", &mut short)
}

fn main(rt: HostRuntime) -> io::Result<()> {
    let mut out = io::writer(&rt);
    masks(&mut out)?;
    refusals(&mut out)
}
