// A new table.
ghost use Rattle.std.specs.Prelude.{◌≡◌, Ok, Err, MatchResult};
ghost use Rattle.faults.specs.Layers.{in_call};
ghost use Rattle.ledger.specs.Opening.{open_answer};

use super::Table;
use crate::cards::StockCard;
use faults::table::{CallName, TableFault, in_call};
use rulebook::book::RuleBook;
use setup::open_books;

impl<B: RuleBook + Drop> Table<B> {
    pub fn open(book: B, players: u8) -> Result<(Table<B>, StockCard), TableFault>
        ensures { MatchResult result (λ v. (in_call CallName.Open (open_answer (B.meaning book) players) ≡ Ok v.0.books) × (v.0.book ≡ book) × (v.1.number ≡ 1)) (λ e. in_call CallName.Open (open_answer (B.meaning book) players) ≡ Err e) }
    {
        let books = in_call(CallName::Open, open_books(&book, players))?;
        Ok((Table { book, books }, StockCard { number: 1 }))
    }
}
