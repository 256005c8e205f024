// The faulty line of a refused sheet, as it is shown on standard error.
ghost use Rattle.std.specs.Prelude.{◌≡◌, map, ◌+◌, ◌≤◌, length};
ghost use Rattle.text.specs.Written.{Wrote};
ghost use Rattle.listing.specs.Note.{shown, is_ended, ending, line_note, note_of};

use reader::line_numbered;
use text_writing::{put_bytes, put_decimal};

// A byte as it is shown.
fn show(b: u8) -> u8
    ensures { result ≡ shown b }
{
    match b {
        b'\t' | b'\n' | b' '..=b'~' => b,
        _ => b'?',
    }
}

// Writes the bytes of a line as they are shown, and answers the next place.
fn put_shown(out: &mut [u8], at: usize, line: &[u8]) -> usize
    requires { at + length line.now ≤ length out.old }
    ensures { Wrote out.old at (map shown line.now) out.new result }
{
    for (k, b) in line.iter().enumerate() {
        out[at + k] = show(*b);
    }
    at + line.len()
}

// Whether byte 10 ends a line.
fn is_ended(line: &[u8]) -> bool
    ensures { result ≡ is_ended line.now }
{
    line.ends_with(b"\n")
}

// Writes what is said of a line without an end, and answers the next place.
fn put_ending(out: &mut [u8], at: usize, ended: bool) -> usize
    requires { at + 39 ≤ length out.old }
    ensures { Wrote out.old at (ending ended) out.new result }
{
    if ended {
        return at;
    }
    put_bytes(out, at, b"\nthe sheet ends there, without byte 10\n")
}

// Writes line k, counted from 1, with its text.
fn put_line(out: &mut [u8], k: u32, line: &[u8]) -> usize
    requires { length line.now + 100 ≤ length out.old }
    ensures { Wrote out.old 0 (line_note k line.now) out.new result }
{
    let number = put_bytes(out, 0, b"line ");
    let colon = put_decimal(out, number, k as u64);
    let start = put_bytes(out, colon, b": ");
    let end = put_shown(out, start, line);
    put_ending(out, end, is_ended(line))
}

// Writes what is said of a sheet whose first faulty line is line k.
pub fn put_note(out: &mut [u8], sheet: &[u8], k: u32) -> usize
    requires { length sheet.now + 100 ≤ length out.old }
    ensures { Wrote out.old 0 (note_of sheet.now k) out.new result }
{
    if k == 0 {
        return put_bytes(out, 0, b"the sheet is longer than 16,384 bytes\n");
    }
    put_line(out, k, line_numbered(sheet, (k - 1) as usize))
}
