// Reads a sheet on standard input and prints its leaf list, or the one line of a refusal; what is wrong with a refused sheet goes to standard error.
#![tactic(auto)]

use std::io;

fn main(rt: HostRuntime) -> io::Result<()> {
    listing::list_from(&mut rt.stdin(), &mut rt.stdout(), &mut rt.stderr())
}
