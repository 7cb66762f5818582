// Follows a game file on standard input, record by record.
#![tactic(auto)]

use game_trace::trace;
use gamefile::records::LONGEST;
use std::io;
use std::io::{Read, Write};

// One byte more than the longest file tells that a file is too long.
const ENOUGH: u64 = LONGEST as u64 + 1;

fn follow(rt: &HostRuntime) -> io::Result<()> {
    let mut file = Vec::new(rt.alloc());
    rt.stdin().take(ENOUGH).read_to_end(&mut file)?;
    let text = trace(rt.alloc(), &file)?;
    rt.stdout().write_all(text.as_bytes())
}

fn main(rt: HostRuntime) -> anyhow::Result<()> {
    follow(&rt)?;
    Ok(())
}
