// How the programs of whole calls print one: a name, the answer's number, its count, line, record, byte and kind, the number that was given, and the bytes of the buffer that was written.
#![tactic(auto)]

ghost use Rattle.std.specs.Prelude.{OnOk};
ghost use Rattle.std.specs.Io.KnownBytes.{Appends};

use answer::{Answer, number_of, values_of};
use std::io;
use std::io::Write;

// Prints the bytes of a text.
pub fn show<W: Write>(out: &mut W, text: &[u8]) -> io::Result<()>
    ensures { OnOk result (Appends (W.contents out.old) (W.contents out.new) text.now) }
{
    out.write_all(text)
}

fn show_number<W: Write>(out: &mut W, n: u64) -> io::Result<()> {
    write!(out, "\t{n}")
}

// An answer's number, count, line, record, byte and kind, and of the number that was given which it is and its magnitude or bits.
pub fn show_answer<W: Write>(out: &mut W, a: Answer) -> io::Result<()> {
    let v = values_of(a);
    show_number(out, number_of(a) as u64)?;
    show_number(out, v.count)?;
    show_number(out, v.line as u64)?;
    show_number(out, v.record as u64)?;
    show_number(out, v.at as u64)?;
    show_number(out, v.kind as u64)?;
    show_number(out, v.given as u64)?;
    show_number(out, v.magnitude)
}

fn show_byte<W: Write>(out: &mut W, b: u8, first: bool) -> io::Result<()> {
    if first {
        show(out, b"\t")?;
    } else {
        show(out, b" ")?;
    }
    write!(out, "{b:02x}")
}

// The bytes of a buffer, and the end of the line.
pub fn show_bytes<W: Write>(out: &mut W, bytes: &[u8]) -> io::Result<()> {
    for (i, b) in bytes.iter().enumerate() {
        show_byte(out, *b, i == 0)?;
    }
    show(out, b"\n")
}
