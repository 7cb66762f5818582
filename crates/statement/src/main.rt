// Prints the statement of the game file on standard input, or the line of its first fault.
#![tactic(auto)]

use console::write_text;
use gamefile::records::LONGEST;
use std::io;
use std::io::{Read, Write};

// One byte more than the longest file tells that a file is too long.
const ENOUGH: u64 = LONGEST as u64 + 1;

// No statement is longer.
const LONGEST_TEXT: usize = 512;

fn print_statement(rt: &HostRuntime) -> io::Result<()> {
    let mut file = Vec::new(rt.alloc());
    rt.stdin().take(ENOUGH).read_to_end(&mut file)?;
    let mut buffer = [0; LONGEST_TEXT];
    match write_text(&file, &mut buffer) {
        Ok(length) => rt.stdout().write_all(&buffer[..length.min(LONGEST_TEXT)]),
        Err(fault) => println!(rt; "{fault}"),
    }
}

fn main(rt: HostRuntime) -> anyhow::Result<()> {
    print_statement(&rt)?;
    Ok(())
}
