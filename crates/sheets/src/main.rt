// Reads each sheet that the file `index` names, and prints a line for it: that it reads, or its first faulty line.
#![tactic(auto)]

ghost use Rattle.std.specs.Prelude.{◌<◌, IfOk, OnOk, length};
ghost use Rattle.std.specs.Io.KnownBytes.{Appends};

use reading::read_sheet;
use sheet_steps::{Counts, FaultyLine};
use std::io;
use std::io::{Read, Write};
use std::rt::Files;

fn show<W: Write>(out: &mut W, text: &[u8]) -> io::Result<()>
    ensures { OnOk result (Appends (W.contents out.old) (W.contents out.new) text.now) }
{
    out.write_all(text)
}

fn show_answer<W: Write>(out: &mut W, answer: Result<Counts, FaultyLine>) -> io::Result<()> {
    match answer {
        Ok(_) => show(out, b"\tread\n"),
        Err(FaultyLine(line)) => {
            show(out, b"\tfaulty\t")?;
            writeln!(out, "{line}")
        }
    }
}

// Reads an open sheet. There is room for more bytes than a sheet may have, so that one that is too long is seen to be.
fn read_open<R: Read>(file: &mut R) -> io::Result<Result<Counts, FaultyLine>> {
    let mut bytes = [0u8; 20000];
    let mut table = [0u32; 4096];
    let n = files_read::fill(file, &mut bytes)?;
    Ok(read_sheet(&bytes[..n], &mut table))
}

// The line of the sheet in the file of that name.
fn show_sheet<R: Files + Print + Eprint>(rt: &R, name: &[u8]) -> io::Result<()> {
    let Some(mut file) = files_read::open(rt, name)? else {
        return Ok(());
    };
    let mut out = io::writer(rt);
    show(&mut out, name)?;
    show_answer(&mut out, read_open(&mut file)?)
}

// The line of the sheet whose name stands at a place, and the place of the next name.
fn show_next<R: Files + Print + Eprint>(rt: &R, names: &[u8], at: usize) -> io::Result<usize>
    requires { at < length names.now }
    ensures { IfOk result (λ next. at < next) }
{
    let end = text::field_end(names, at);
    show_sheet(rt, &names[at..end])?;
    Ok(end + 1)
}

// The lines of all sheets, in the order of their names.
fn show_all<R: Files + Print + Eprint>(rt: &R, names: &[u8]) -> io::Result<()> {
    let mut at: usize = 0;
    // The end of a name says where the next one starts, so no range gives the places.
    while at < names.len() {
        at = show_next(rt, names, at)?;
    }
    Ok(())
}

// The lines of an open index of at most 8,192 bytes.
fn show_index<R: Files + Print + Eprint>(rt: &R, index: &mut R::File) -> io::Result<()> {
    let mut bytes = [0u8; 8192];
    let n = files_read::fill(index, &mut bytes)?;
    show_all(rt, &bytes[..n])
}

fn main(rt: HostRuntime) -> io::Result<()> {
    let Some(mut index) = files_read::open(&rt, b"index")? else {
        return Ok(());
    };
    show_index(&rt, &mut index)
}
