// Lists the records of a game file on standard input.
#![tactic(auto)]

use gamefile::records::LONGEST;
use listing::listing;
use std::io;
use std::io::{Read, Write};

// One byte more than the longest file tells that a file is too long.
const ENOUGH: u64 = LONGEST as u64 + 1;

fn list(rt: &HostRuntime) -> io::Result<()> {
    let mut file = Vec::new(rt.alloc());
    rt.stdin().take(ENOUGH).read_to_end(&mut file)?;
    let text = listing(rt.alloc(), &file)?;
    rt.stdout().write_all(text.as_bytes())
}

fn main(rt: HostRuntime) -> anyhow::Result<()> {
    list(&rt)?;
    Ok(())
}
