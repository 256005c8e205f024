// The list program's work on each file that an argument names, with what it says on standard error among what it prints.
#![tactic(auto)]

use std::env::FillError;
use std::io;
use std::io::Write;
use std::rt::{Env, Files};

// Lists the sheet in the file of that name, under that name.
fn list_file<R: Files + Print + Eprint>(rt: &R, name: &[u8]) -> io::Result<()> {
    let Some(mut file) = files_read::open(rt, name)? else {
        return Ok(());
    };
    let mut out = io::writer(rt);
    out.write_all(name)?;
    out.write_all(b":\n")?;
    listing::list_from(&mut file, &mut out, &mut io::writer(rt))
}

fn main(rt: HostRuntime) -> io::Result<()> {
    let mut name = [0u8; 4096];
    for i in 1..usize::MAX {
        match rt.arg(i, &mut name) {
            Ok(n) => list_file(&rt, &name[..n])?,
            Err(FillError::TooLong) => eprintln!(rt; "argument {i} is too long for a file's name")?,
            Err(FillError::NotPresent) => return Ok(()),
        }
    }
    Ok(())
}
