// Plays the first stock round, the operating round after it and the reopening, under both printed books, and prints
// what each call was answered.
#![tactic(auto)]

use faults::table::TableFault;
use printed::berg::Berg;
use printed::north::North;
use rulebook::book::RuleBook;
use std::io;
use table::cards::{OperatingCard, StockCard};
use table::table::Table;

fn say(rt: &HostRuntime, call: &str, answer: Result<(), TableFault>) -> io::Result<()> {
    match answer {
        Ok(()) => println!(rt; "{call}: granted"),
        Err(fault) => {
            let number = fault.refusal.number();
            println!(rt; "{call}: refused {number}")
        }
    }
}

// Seat 1 opens company 1 at its lowest par, and all buy until it floats.
fn buy_until_float<B: RuleBook>(
    rt: &HostRuntime,
    table: &mut Table<B>,
    card: &StockCard,
) -> io::Result<()> {
    say(rt, "sell 1 1 1", table.sell(card, 1, 1, 1))?;
    say(rt, "buy 1 1 0 3", table.buy(card, 1, 1, 0, 3))?;
    say(rt, "buy 1 1 0 3", table.buy(card, 1, 1, 0, 3))?;
    say(rt, "end 1", table.end(card, 1))?;
    say(rt, "buy 2 1 0 0", table.buy(card, 2, 1, 0, 0))?;
    say(rt, "end 2", table.end(card, 2))?;
    say(rt, "buy 3 1 0 0", table.buy(card, 3, 1, 0, 0))?;
    say(rt, "end 3", table.end(card, 3))?;
    say(rt, "buy 1 1 0 0", table.buy(card, 1, 1, 0, 0))?;
    say(rt, "end 1", table.end(card, 1))
}

// Seat 2 sells its tenth, and then nobody does anything.
fn sell_and_pass<B: RuleBook>(
    rt: &HostRuntime,
    table: &mut Table<B>,
    card: &StockCard,
) -> io::Result<()> {
    say(rt, "sell 2 1 1", table.sell(card, 2, 1, 1))?;
    say(rt, "buy 2 1 1 0", table.buy(card, 2, 1, 1, 0))?;
    say(rt, "end 2", table.end(card, 2))?;
    say(rt, "end 3", table.end(card, 3))?;
    say(rt, "end 1", table.end(card, 1))
}

// Company 1 pays a bill, withholds, and buys a train.
fn operate<B: RuleBook>(
    rt: &HostRuntime,
    table: &mut Table<B>,
    card: &OperatingCard,
) -> io::Result<()> {
    say(rt, "bill 2 20", table.bill(card, 2, 20))?;
    say(rt, "bill 1 20", table.bill(card, 1, 20))?;
    say(rt, "payout 1 1 30", table.payout(card, 1, 1, 30))?;
    say(rt, "payout 1 0 0", table.payout(card, 1, 0, 0))?;
    say(rt, "done 1", table.done(card, 1))?;
    say(rt, "train 1 1", table.train(card, 1, 1))?;
    say(rt, "train 1 0", table.train(card, 1, 0))?;
    say(rt, "done 1", table.done(card, 1))
}

fn play<B: RuleBook + Drop>(rt: &HostRuntime, book: B) -> io::Result<()> {
    let (mut table, card) = match Table::open(book, 3) {
        Ok(opened) => opened,
        Err(fault) => return say(rt, "open 3", Err(fault)),
    };
    say(rt, "open 3", Ok(()))?;
    buy_until_float(rt, &mut table, &card)?;
    sell_and_pass(rt, &mut table, &card)?;
    // Not everybody has passed yet, and the card comes back.
    let Err((fault, card)) = table.close(card) else {
        return say(rt, "close", Ok(()));
    };
    say(rt, "close", Err(fault))?;
    say(rt, "end 2", table.end(&card, 2))?;
    finish(rt, table, card)
}

// The stock round is over: its card is traded for the operating round's, and that for the next stock round's.
fn finish<B: RuleBook + Drop>(
    rt: &HostRuntime,
    mut table: Table<B>,
    stock: StockCard,
) -> io::Result<()> {
    let operating = match table.close(stock) {
        Ok(operating) => operating,
        Err((fault, _)) => return say(rt, "close", Err(fault)),
    };
    say(rt, "close", Ok(()))?;
    operate(rt, &mut table, &operating)?;
    let next = match table.reopen(operating) {
        Ok(next) => next,
        Err((fault, _)) => return say(rt, "reopen", Err(fault)),
    };
    say(rt, "reopen", Ok(()))?;
    say(rt, "buy 3 1 1 0", table.buy(&next, 3, 1, 1, 0))
}

fn play_both(rt: &HostRuntime) -> io::Result<()> {
    rt.println("North")?;
    play(rt, North)?;
    rt.println("Berg")?;
    play(rt, Berg)
}

fn main(rt: HostRuntime) -> anyhow::Result<()> {
    play_both(&rt)?;
    Ok(())
}
