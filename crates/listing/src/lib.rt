// What the list program prints for a sheet: its leaf list, or the one line of a refusal; and beside a refusal, for standard error, the faulty line itself.
#![tactic(auto)]

ghost use Rattle.std.specs.Prelude.{◌≡◌, ◌≤◌, length, IfSome, OnOk};
ghost use Rattle.std.specs.Io.KnownBytes.{Appends};
ghost use Rattle.sheet.specs.Sheet.{sheet_of};
ghost use Rattle.text.specs.Written.{written, Wrote};
ghost use Rattle.listing.specs.Output.{refused_line, output_of, faulty_line};
ghost use Rattle.listing.specs.Note.{note_of, said_of};

use crate::note::put_note;
use answer::{number_of, values_of};
use leaves::leaf_list;
use std::io;
use std::io::{Read, Write};
use text_writing::{put_bytes, put_decimal};

pub mod note;

// What is printed: so many bytes; and of a refused sheet the number of its faulty line.
#[derive(Clone, Copy)]
pub struct Output {
    pub bytes: usize,
    pub faulty: Option<u32>,
}

// Writes the line of a refusal.
fn put_refused(out: &mut [u8], number: u32, line: u32) -> usize
    requires { 30 ≤ length out.old }
    ensures { Wrote out.old 0 (refused_line number line) out.new result }
{
    let first = put_bytes(out, 0, b"refused\t");
    let tab = put_decimal(out, first, number as u64);
    let second = put_bytes(out, tab, b"\t");
    let end = put_decimal(out, second, line as u64);
    put_bytes(out, end, b"\n")
}

// Writes what is printed for a sheet. No list has more than 49,166 bytes: the header's 14, and at most 12 for each of 4,096 leaves.
pub fn put_output(out: &mut [u8], sheet: &[u8]) -> Output
    requires { 49166 ≤ length out.old }
    ensures long { result.bytes ≡ length (output_of sheet.now) }
    ensures faulty { result.faulty ≡ faulty_line (sheet_of sheet.now) }
    ensures bytes { out.new ≡ written out.old 0 (output_of sheet.now) }
{
    let mut table = [0u32; 8192];
    let a = leaf_list(sheet, out, &mut table);
    let number = number_of(a);
    let v = values_of(a);
    // 0 is done
    if number == 0 {
        return Output {
            bytes: v.count as usize,
            faulty: None,
        };
    }
    let line = v.line;
    let bytes = put_refused(out, number, line);
    Output {
        bytes,
        faulty: Some(line),
    }
}

// Prints what is said of a refused sheet.
fn print_note<E: Write>(sheet: &[u8], line: u32, notes: &mut E) -> io::Result<()>
    requires { length sheet.now ≤ 16385 }
    ensures { OnOk result (Appends (E.contents notes.old) (E.contents notes.new) (note_of sheet.now line)) }
{
    let mut note = [0u8; 16485];
    let n = put_note(&mut note, sheet, line);
    notes.write_all(&note[..n])
}

// Prints what is printed for a sheet, and what is said of a refused one.
pub fn print_output<W: Write, E: Write>(sheet: &[u8], out: &mut W, notes: &mut E) -> io::Result<()>
    requires { length sheet.now ≤ 16385 }
    ensures printed { OnOk result (Appends (W.contents out.old) (W.contents out.new) (output_of sheet.now)) }
    ensures said { OnOk result (Appends (E.contents notes.old) (E.contents notes.new) (said_of sheet.now)) }
{
    let mut bytes = [0u8; 49166];
    let output = put_output(&mut bytes, sheet);
    out.write_all(&bytes[..output.bytes])?;
    match output.faulty {
        Some(line) => print_note(sheet, line, notes),
        None => Ok(()),
    }
}

// The whole program: reads a sheet and prints. One byte more is read than a sheet may have, so that one that is too long is seen to be.
pub fn list_from<R: Read, W: Write, E: Write>(
    from: &mut R,
    out: &mut W,
    notes: &mut E,
) -> io::Result<()>
    ensures printed { OnOk result (IfSome (R.remaining from.old) (λ text. Appends (W.contents out.old) (W.contents out.new) (output_of text))) }
    ensures said { OnOk result (IfSome (R.remaining from.old) (λ text. Appends (E.contents notes.old) (E.contents notes.new) (said_of text))) }
{
    let mut sheet = [0u8; 16385];
    let n = files_read::fill(from, &mut sheet)?;
    print_output(&sheet[..n], out, notes)
}
