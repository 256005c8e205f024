// How the programs that read sheets open a file by its name and fill a buffer from what they read.
#![tactic(auto)]

ghost use Rattle.std.specs.Prelude.{◌≡◌, ◌≤◌, ◌<◌, IfOk, length, take};
ghost use Rattle.std.specs.Io.KnownBytes.{Consumes, IsAtEnd};

use std::fs::File;
use std::io;
use std::io::Read;
use std::rt::Files;

// Reads up to the buffer's end or the reader's, and answers how many bytes came.
pub fn fill<R: Read>(from: &mut R, bytes: &mut [u8]) -> io::Result<usize>
    ensures room { IfOk result (λ n. n ≤ length bytes.new) }
    ensures bytes { IfOk result (λ n. Consumes (R.remaining from.old) (R.remaining from.new) (take n bytes.new)) }
    ensures end { IfOk result (λ n. n < length bytes.new → IsAtEnd (R.remaining from.new)) }
{
    let mut n: usize = 0;
    // A read brings as many bytes as it can, so no range has these steps, and no method of Read answers how many came before the end.
    while n < bytes.len() {
        let more = from.read(&mut bytes[n..])?;
        if more == 0 {
            return Ok(n);
        }
        n += more;
    }
    Ok(n)
}

// The file of that name, opened; or none where it does not open, which is said on standard error.
pub fn open<R: Files + Eprint>(rt: &R, name: &[u8]) -> io::Result<Option<R::File>> {
    match str::from_utf8(name) {
        Err(_) => {
            eprintln!(rt; "a file's name is not UTF-8")?;
            Ok(None)
        }
        Ok(text) => open_named(rt, text),
    }
}

fn open_named<R: Files + Eprint>(rt: &R, name: &str) -> io::Result<Option<R::File>> {
    match File::open(rt, name) {
        Err(error) => {
            eprintln!(rt; "{name}: {error}")?;
            Ok(None)
        }
        Ok(file) => Ok(Some(file)),
    }
}
