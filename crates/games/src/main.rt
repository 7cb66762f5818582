// Plays each game that index.txt names and compares what is printed for it with what is expected, byte by byte.
#![tactic(auto)]

use console::write_text;
use std::{fs, io};

// No statement is longer.
const LONGEST: usize = 512;

// Is what is printed for the game what is expected?
fn agrees(rt: &HostRuntime, name: &str) -> io::Result<bool> {
    let file = fs::read(rt, format!(in rt.alloc(); "{name}.game")?)?;
    let expected = fs::read(rt, format!(in rt.alloc(); "{name}.expected")?)?;
    let mut buffer = [0; LONGEST];
    let written = write_text(&file, &mut buffer);
    Ok(written.is_ok_and(|length| buffer[..length.min(LONGEST)] == expected[..]))
}

fn check_games(rt: &HostRuntime) -> io::Result<()> {
    let index = fs::read_to_string(rt, "index.txt")?;
    let mut differ: u64 = 0;
    for name in index.lines() {
        if !agrees(rt, name)? {
            println!(rt; "{name} differs")?;
            differ = differ.saturating_add(1);
        }
    }
    let played = index.lines().count();
    println!(rt; "{played} games played, {differ} differ")
}

fn main(rt: HostRuntime) -> anyhow::Result<()> {
    check_games(&rt)?;
    Ok(())
}
