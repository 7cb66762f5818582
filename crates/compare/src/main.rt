// Plays two game files and says, hand by hand, where the two tables differ, or that they are equal: compare A B.
#![tactic(auto)]

use faults::file::FileFault;
use file_calls::calls_of;
use gamefile::records::LONGEST;
use ledger::books::Books;
use replay::game::Game;
use replay::replay;
use rulebook::book::RuleBook;
use std::fs::File;
use std::io::Read;
use std::process::ExitCode;
use std::{env, io};
use table::life::compare_lives;

// One byte more than the longest file tells that a file is too long.
const ENOUGH: u64 = LONGEST as u64 + 1;

fn read_file(rt: &HostRuntime, name: &str) -> io::Result<Vec<u8>> {
    let mut bytes = Vec::new(rt.alloc());
    File::open(rt, name)?.take(ENOUGH).read_to_end(&mut bytes)?;
    Ok(bytes)
}

fn say_refused(rt: &HostRuntime, name: &str, fault: FileFault) -> io::Result<()> {
    println!(rt; "{name}: {fault}")
}

// Two tables side by side, and where to say in which hands they differ.
#[derive(Clone, Copy)]
struct Comparison<'a> {
    rt: &'a HostRuntime,
    one: &'a Books,
    other: &'a Books,
}

impl Comparison<'_> {
    // A seat's or a company's cash hand at each table, by the place that it has in both rows.
    fn show_cash(&self, word: &str, number: u8, place: usize) -> io::Result<()> {
        let (a, b) = (self.one.marks(place), self.other.marks(place));
        if a == b {
            return Ok(());
        }
        println!(self.rt; "{word} {number}: cash {a} and {b}")
    }

    // The bank has no number. No line needs memory of its own, so that none can fail for want of it.
    fn show_cash_row(&self, companies: u8) -> io::Result<()> {
        let (a, b) = (self.one.marks(0), self.other.marks(0));
        if a != b {
            println!(self.rt; "bank: cash {a} and {b}")?;
        }
        for seat in 1..=self.one.players {
            self.show_cash("seat", seat, usize::from(seat))?;
        }
        for company in 1..=companies {
            self.show_cash("company", company, self.one.treasury(company))?;
        }
        Ok(())
    }

    // A certificate that one table has in this hand and the other has not.
    fn show_certificate(
        &self,
        company: u8,
        place: usize,
        number: u8,
        table: &str,
    ) -> io::Result<()> {
        let rt = self.rt;
        print!(rt; "company {company}: certificate {number} only at the {table} table with ")?;
        match place {
            0 => rt.println("the offering"),
            1 => rt.println("the pool"),
            _ => {
                let seat = place - 1;
                println!(rt; "seat {seat}")
            }
        }
    }

    fn show_papers(&self, company: u8, place: usize) -> io::Result<()> {
        let here = self.one.papers(company, place).certificates();
        let there = self.other.papers(company, place).certificates();
        for number in 0..9 {
            let held = here.contains(number);
            if held != there.contains(number) {
                let table = if held { "first" } else { "second" };
                self.show_certificate(company, place, number, table)?;
            }
        }
        Ok(())
    }

    // The stack has place 0, and each company the place of its number.
    fn show_trains(&self, place: usize) -> io::Result<()> {
        for kind in 0..8 {
            let (a, b) = (self.one.trains(place, kind), self.other.trains(place, kind));
            if a == b {
                continue;
            }
            if place == 0 {
                println!(self.rt; "stack: trains of kind {kind} {a} and {b}")?;
            } else {
                println!(self.rt; "company {place}: trains of kind {kind} {a} and {b}")?;
            }
        }
        Ok(())
    }

    fn show_all(&self, companies: u8) -> io::Result<()> {
        self.show_cash_row(companies)?;
        for company in 1..=companies {
            for place in 0..usize::from(self.one.players) + 2 {
                self.show_papers(company, place)?;
            }
        }
        for place in 0..=usize::from(companies) {
            self.show_trains(place)?;
        }
        Ok(())
    }
}

// The verdict comes from the call that leads both lives from the opening; the tables show where they differ.
fn compare_games(
    rt: &HostRuntime,
    one: &Game,
    other: &Game,
    first: &[u8],
    second: &[u8],
) -> io::Result<()> {
    let book = *one.table.book();
    let players = one.table.books().players;
    if book != *other.table.book() || players != other.table.books().players {
        return rt.println("not opened alike");
    }
    let calls = calls_of(rt.alloc(), first)?;
    let others = calls_of(rt.alloc(), second)?;
    match compare_lives(&book, players, &calls, &others) {
        Ok(true) => rt.println("equal in every hand"),
        _ => {
            let (one, other) = (one.table.books(), other.table.books());
            Comparison { rt, one, other }.show_all(book.companies())?;
            rt.println("not equal")
        }
    }
}

fn compare_files(rt: &HostRuntime, one: &str, other: &str) -> io::Result<()> {
    let first = read_file(rt, one)?;
    let second = read_file(rt, other)?;
    // The second file is played only where the first one is not refused.
    match replay(&first) {
        Ok(a) => match replay(&second) {
            Ok(b) => compare_games(rt, &a, &b, &first, &second),
            Err(stopped) => say_refused(rt, other, stopped.fault),
        },
        Err(stopped) => say_refused(rt, one, stopped.fault),
    }
}

fn main(rt: HostRuntime) -> anyhow::Result<ExitCode> {
    let mut words = env::args(&rt)?;
    let _ = words.next();
    let (Some(one), Some(other), None) = (words.next(), words.next(), words.next()) else {
        eprintln!(rt; "compare: give the names of two game files, as in: compare A B")?;
        return Ok(ExitCode::FAILURE);
    };
    compare_files(&rt, one.as_str(), other.as_str())?;
    Ok(ExitCode::SUCCESS)
}
