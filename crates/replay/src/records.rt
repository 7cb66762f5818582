// One record as a call of the table.
ghost use Rattle.std.specs.Prelude.{◌≡◌, true, false, Some};
ghost use Rattle.faults.specs.Layers.{at_place};
ghost use Rattle.entries.specs.Entry.{view};
ghost use Rattle.replay.specs.Calls.{call_of};
ghost use Rattle.replay.specs.Cards.{number_of, card_held, fault_told};
ghost use Rattle.replay.specs.Playing.{fault_of, asked, record_played};

use crate::card::{Card, Refused};
use entries::record::Record;
use faults::file::{FileFault, FileRefusal, at_place};
use faults::table::TableFault;
use rulebook::book::RuleBook;
use table::cards::{OperatingCard, StockCard};
use table::table::Table;

// The card as it was, with what was told.
fn kept(card: Card, place: usize, told: Result<(), TableFault>) -> Result<Card, Refused>
    ensures card { card_held result ≡ number_of card }
    ensures fault { fault_told result ≡ fault_of (at_place place told) }
{
    match at_place(place, told) {
        Ok(()) => Ok(card),
        Err(fault) => Err(Refused { fault, card }),
    }
}

fn refused(refusal: FileRefusal, place: usize, card: Card) -> Result<Card, Refused>
    ensures card { card_held result ≡ number_of card }
    ensures fault { fault_told result ≡ Some (record { refusal = refusal; place = place }) }
{
    let fault = FileFault { refusal, place };
    Err(Refused { fault, card })
}

// The two rounds have other calls and other cards, so each has its own function: a trait over both would be longer.
fn with_stock_card<B: RuleBook>(
    table: &mut Table<B>,
    card: StockCard,
    place: usize,
    entry: Record,
) -> Result<Card, Refused>
    ensures played { (table.new.books, card_held result, fault_told result) ≡ asked (B.meaning table.old.book) table.old.books true card.number place (call_of card.number (view entry)) }
    ensures same { table.new.book ≡ table.old.book }
{
    let told = match entry {
        Record::Open { .. } => {
            return refused(FileRefusal::OpenMisplaced, place, Card::Stock(card));
        }
        Record::Sell {
            seat,
            company,
            tenths,
        } => table.sell(&card, seat, company, tenths),
        Record::Buy {
            seat,
            company,
            source,
            par_space,
        } => table.buy(&card, seat, company, source, u16::from(par_space)),
        Record::End { seat } => table.end(&card, seat),
        Record::Close => {
            return match table.close(card) {
                Ok(next) => Ok(Card::Operating(next)),
                Err((fault, card)) => kept(Card::Stock(card), place, Err(fault)),
            };
        }
        _ => return refused(FileRefusal::OtherRound, place, Card::Stock(card)),
    };
    kept(Card::Stock(card), place, told)
}

fn with_operating_card<B: RuleBook>(
    table: &mut Table<B>,
    card: OperatingCard,
    place: usize,
    entry: Record,
) -> Result<Card, Refused>
    ensures played { (table.new.books, card_held result, fault_told result) ≡ asked (B.meaning table.old.book) table.old.books false card.number place (call_of card.number (view entry)) }
    ensures same { table.new.book ≡ table.old.book }
{
    let told = match entry {
        Record::Open { .. } => {
            return refused(FileRefusal::OpenMisplaced, place, Card::Operating(card));
        }
        Record::Bill { company, amount } => table.bill(&card, company, amount),
        Record::Payout {
            company,
            mode,
            revenue,
        } => table.payout(&card, company, mode, revenue),
        Record::Train { company, kind } => table.train(&card, company, kind),
        Record::Done { company } => table.done(&card, company),
        Record::Reopen => {
            return match table.reopen(card) {
                Ok(next) => Ok(Card::Stock(next)),
                Err((fault, card)) => kept(Card::Operating(card), place, Err(fault)),
            };
        }
        _ => return refused(FileRefusal::OtherRound, place, Card::Operating(card)),
    };
    kept(Card::Operating(card), place, told)
}

// Makes the call that a record asks for. An open comes too late, and a call of the other round is not made.
pub fn make_record<B: RuleBook>(
    table: &mut Table<B>,
    card: Card,
    place: usize,
    entry: Record,
) -> Result<Card, Refused>
    ensures played { (table.new.books, card_held result, fault_told result) ≡ record_played (B.meaning table.old.book) table.old.books (number_of card) place (view entry) }
    ensures same { table.new.book ≡ table.old.book }
{
    match card {
        Card::Stock(card) => with_stock_card(table, card, place, entry),
        Card::Operating(card) => with_operating_card(table, card, place, entry),
    }
}
