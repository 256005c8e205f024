// Whole calls: the exercises of document 01 that are not in the proved table, and a word of a member.
#![tactic(auto)]

use convert::convert_copying;
use shown::{show, show_answer, show_bytes};
use std::io;
use std::io::Write;

// A call that copies: its name, the sheets, the number of records, the handling, and the source's bytes.
#[derive(Clone, Copy)]
struct Case<'a> {
    name: &'a [u8],
    source_sheet: &'a [u8],
    destination_sheet: &'a [u8],
    count: u64,
    handling: u32,
    source: &'a [u8],
}

// Makes the call on a destination that already holds bytes, and shows the answer and the bytes that it then holds.
fn copied<W: Write>(out: &mut W, case: Case<'_>, destination: &mut [u8]) -> io::Result<()> {
    let mut table = [7u32; 8192];
    let a = convert_copying(
        case.source_sheet,
        case.destination_sheet,
        case.count,
        case.handling,
        case.source,
        destination,
        &mut table,
    );
    show(out, case.name)?;
    show_answer(out, a)?;
    show_bytes(out, destination)
}

fn main(rt: HostRuntime) -> io::Result<()> {
    let mut out = io::writer(&rt);
    copied(
        &mut out,
        Case {
            name: b"4386 into 4 bytes BE offset 0",
            source_sheet: b"int\t2\tLE\t0\t16\tzero\tzero\tunsigned\n",
            destination_sheet: b"int\t4\tBE\t0\t16\tzero\tzero\tunsigned\n",
            count: 1,
            handling: 1,
            source: b"\x22\x11",
        },
        &mut [0xff, 0xff, 0xff, 0xff, 0x99],
    )?;
    copied(
        &mut out,
        Case {
            name: b"7F unsigned to signed",
            source_sheet: b"int\t1\tLE\t0\t8\tzero\tzero\tunsigned\n",
            destination_sheet: b"int\t1\tLE\t0\t8\tzero\tzero\tsigned\n",
            count: 1,
            handling: 1,
            source: b"\x7f",
        },
        &mut [0x00],
    )?;
    copied(
        &mut out,
        Case {
            name: b"FF unsigned to signed clamped",
            source_sheet: b"int\t1\tLE\t0\t8\tzero\tzero\tunsigned\n",
            destination_sheet: b"int\t1\tLE\t0\t8\tzero\tzero\tsigned\n",
            count: 1,
            handling: 0,
            source: b"\xff",
        },
        &mut [0x00],
    )?;
    copied(
        &mut out,
        Case {
            name: b"pad bits not read",
            source_sheet: b"int\t2\tBE\t0\t12\tzero\tzero\tunsigned\n",
            destination_sheet: b"int\t2\tBE\t0\t16\tzero\tzero\tunsigned\n",
            count: 1,
            handling: 1,
            source: b"\xf1\x23",
        },
        &mut [0x00, 0x00],
    )?;
    copied(
        &mut out,
        Case {
            name: b"all records",
            source_sheet: b"int\t1\tLE\t0\t8\tzero\tzero\tunsigned\n",
            destination_sheet: b"int\t2\tBE\t0\t16\tzero\tzero\tunsigned\n",
            count: 3,
            handling: 1,
            source: b"\x01\x02\x03",
        },
        &mut [0x77, 0x77, 0x77, 0x77, 0x77, 0x77, 0x77],
    )?;
    copied(
        &mut out,
        Case {
            name: b"array by row-major place",
            source_sheet: b"int\t1\tLE\t0\t8\tzero\tzero\tunsigned\narray\t0\t2\t3\n",
            destination_sheet: b"int\t2\tBE\t0\t16\tzero\tzero\tunsigned\narray\t0\t2\t3\n",
            count: 1,
            handling: 1,
            source: b"\x01\x02\x03\x04\x05\x06",
        },
        &mut [
            0x00, 0x00, 0x00, 0x00, 0x00, 0x00, 0x00, 0x00, 0x00, 0x00, 0x00, 0x00,
        ],
    )?;
    copied(
        &mut out,
        Case {
            name: b"unmatched keeps the background",
            source_sheet: b"int\t1\tLE\t0\t8\tzero\tzero\tunsigned\ncomp\t1\nmember\tb\t0\t0\n",
            destination_sheet: b"int\t1\tLE\t0\t8\tzero\tzero\tunsigned\ncomp\t4\nmember\ta\t0\t0\nmember\tb\t2\t0\n",
            count: 1,
            handling: 1,
            source: b"\x09",
        },
        &mut [0x70, 0x71, 0x72, 0x73],
    )?;
    copied(
        &mut out,
        Case {
            name: b"clamped by a word",
            source_sheet: b"int\t1\tLE\t0\t8\tzero\tzero\tunsigned\ncomp\t2\nmember\toil\t0\t0\nmember\tboost\t1\t0\n",
            destination_sheet: b"int\t1\tLE\t0\t8\tzero\tzero\tsigned\ncomp\t2\nmember\toil\t0\t0\tclamp\nmember\tboost\t1\t0\n",
            count: 1,
            handling: 1,
            source: b"\xc8\x64",
        },
        &mut [0x55, 0x66],
    )
}
