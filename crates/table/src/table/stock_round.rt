// The calls with a stock card.
ghost use Rattle.std.specs.Prelude.{◌≡◌, ◌+◌, MatchResult};
ghost use Rattle.faults.specs.Layers.{in_call};
ghost use Rattle.ledger.specs.Lives.{answer, after};
ghost use Rattle.ledger.specs.declared.call.Call.TheVariants.{Sell, Buy, End, Close};
ghost use Rattle.table.specs.Cards.{told_by};

use super::Table;
use crate::cards::{OperatingCard, StockCard};
use faults::table::{CallName, TableFault};
use ledger::call::Call;
use rulebook::book::RuleBook;

impl<B: RuleBook> Table<B> {
    pub fn sell(
        &mut self,
        card: &StockCard,
        seat: u8,
        company: u8,
        tenths: u8,
    ) -> Result<(), TableFault>
        ensures told { result ≡ in_call CallName.Sell (answer (B.meaning self.old.book) self.old.books (Sell card.now.number seat company tenths)) }
        ensures made { self.new.books ≡ after (B.meaning self.old.book) self.old.books (Sell card.now.number seat company tenths) }
        ensures same { self.new.book ≡ self.old.book }
    {
        self.make(
            CallName::Sell,
            Call::Sell {
                card: card.number,
                seat,
                company,
                tenths,
            },
        )
    }

    pub fn buy(
        &mut self,
        card: &StockCard,
        seat: u8,
        company: u8,
        source: u8,
        space: u16,
    ) -> Result<(), TableFault>
        ensures told { result ≡ in_call CallName.Buy (answer (B.meaning self.old.book) self.old.books (Buy card.now.number seat company source space)) }
        ensures made { self.new.books ≡ after (B.meaning self.old.book) self.old.books (Buy card.now.number seat company source space) }
        ensures same { self.new.book ≡ self.old.book }
    {
        self.make(
            CallName::Buy,
            Call::Buy {
                card: card.number,
                seat,
                company,
                source,
                par: space,
            },
        )
    }

    pub fn end(&mut self, card: &StockCard, seat: u8) -> Result<(), TableFault>
        ensures told { result ≡ in_call CallName.End (answer (B.meaning self.old.book) self.old.books (End card.now.number seat)) }
        ensures made { self.new.books ≡ after (B.meaning self.old.book) self.old.books (End card.now.number seat) }
        ensures same { self.new.book ≡ self.old.book }
    {
        self.make(
            CallName::End,
            Call::End {
                card: card.number,
                seat,
            },
        )
    }

    // A refusal gives the card back beside the fault; as a pair it can be taken apart in the pattern of an `Err`.
    pub fn close(&mut self, card: StockCard) -> Result<OperatingCard, (TableFault, StockCard)>
        ensures told { told_by result ≡ in_call CallName.Close (answer (B.meaning self.old.book) self.old.books (Close card.number)) }
        ensures card { MatchResult result (λ next. next.number ≡ self.old.books.round + 1) (λ back. back.1 ≡ card) }
        ensures made { self.new.books ≡ after (B.meaning self.old.book) self.old.books (Close card.number) }
        ensures same { self.new.book ≡ self.old.book }
    {
        match self.make(CallName::Close, Call::Close { card: card.number }) {
            Ok(()) => Ok(OperatingCard {
                number: self.books.round,
            }),
            Err(fault) => Err((fault, card)),
        }
    }
}
