ghost use Rattle.std.specs.Prelude.{◌≡◌};
ghost use Rattle.replay.specs.Cards.{number_of, card_held, fault_told};
ghost use Rattle.replay.specs.Laws.{LedOn};
ghost use Rattle.replay.specs.Playing.{played_from};

use crate::card::{Card, Refused};
use crate::records::make_record;
use gamefile::records::records_from;
use rulebook::book::RuleBook;
use table::table::Table;

// Makes the calls of a file's records from a place on, to the file's end or its first fault. Answers the card that is then held.
pub fn play<B: RuleBook>(
    table: &mut Table<B>,
    card: Card,
    file: &[u8],
    from: usize,
) -> Result<Card, Refused>
    ensures played { (table.new.books, card_held result, fault_told result) ≡ played_from (B.meaning table.old.book) table.old.books (number_of card) file.now from }
    ensures same { table.new.book ≡ table.old.book }
    ensures life { LedOn (B.meaning table.old.book) table.old.books table.new.books }
    ensures card { number_of card ≡ table.old.books.round → card_held result ≡ table.new.books.round }
{
    let mut card = card;
    for found in records_from(file, from) {
        match found {
            Ok((place, record)) => card = make_record(table, card, place, record)?,
            Err(fault) => return Err(Refused { fault, card }),
        }
    }
    Ok(card)
}
