// Prints the bank and seat lines after the opening cash of a printed book is dealt: opening BOOK PLAYERS.
#![tactic(auto)]

use dealing::listing::opening_text;
use std::io::Write;
use std::process::ExitCode;
use std::{env, io};
use text::word_number;

// The two numbers after the program's name, if there are just two words and both are numbers.
fn numbers(rt: &HostRuntime) -> Option<(u32, u32)> {
    let mut words = env::args(rt).ok()?.skip(1);
    let (Some(book), Some(players), None) = (words.next(), words.next(), words.next()) else {
        return None;
    };
    Some((
        word_number(book.as_bytes())?,
        word_number(players.as_bytes())?,
    ))
}

fn print_opening(rt: &HostRuntime, book: u32, players: u32) -> io::Result<()> {
    rt.stdout()
        .write_all(opening_text(book, players).as_bytes())
}

fn main(rt: HostRuntime) -> anyhow::Result<ExitCode> {
    let Some((book, players)) = numbers(&rt) else {
        eprintln!(rt;
            "opening: give two whole numbers, the book and the players, as in: opening 1 3"
        )?;
        return Ok(ExitCode::FAILURE);
    };
    print_opening(&rt, book, players)?;
    Ok(ExitCode::SUCCESS)
}
