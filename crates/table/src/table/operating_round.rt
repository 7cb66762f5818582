// The calls with an operating card.
ghost use Rattle.std.specs.Prelude.{◌≡◌, ◌+◌, MatchResult};
ghost use Rattle.faults.specs.Layers.{in_call};
ghost use Rattle.ledger.specs.Lives.{answer, after};
ghost use Rattle.ledger.specs.declared.call.Call.TheVariants.{Bill, Payout, Train, Done, Reopen};
ghost use Rattle.table.specs.Cards.{told_by};

use super::Table;
use crate::cards::{OperatingCard, StockCard};
use faults::table::{CallName, TableFault};
use ledger::call::Call;
use rulebook::book::RuleBook;

impl<B: RuleBook> Table<B> {
    pub fn bill(&mut self, card: &OperatingCard, company: u8, amount: u16) -> Result<(), TableFault>
        ensures told { result ≡ in_call CallName.Bill (answer (B.meaning self.old.book) self.old.books (Bill card.now.number company amount)) }
        ensures made { self.new.books ≡ after (B.meaning self.old.book) self.old.books (Bill card.now.number company amount) }
        ensures same { self.new.book ≡ self.old.book }
    {
        self.make(
            CallName::Bill,
            Call::Bill {
                card: card.number,
                company,
                amount,
            },
        )
    }

    pub fn payout(
        &mut self,
        card: &OperatingCard,
        company: u8,
        mode: u8,
        revenue: u16,
    ) -> Result<(), TableFault>
        ensures told { result ≡ in_call CallName.Payout (answer (B.meaning self.old.book) self.old.books (Payout card.now.number company mode revenue)) }
        ensures made { self.new.books ≡ after (B.meaning self.old.book) self.old.books (Payout card.now.number company mode revenue) }
        ensures same { self.new.book ≡ self.old.book }
    {
        self.make(
            CallName::Payout,
            Call::Payout {
                card: card.number,
                company,
                mode,
                revenue,
            },
        )
    }

    pub fn train(&mut self, card: &OperatingCard, company: u8, kind: u8) -> Result<(), TableFault>
        ensures told { result ≡ in_call CallName.Train (answer (B.meaning self.old.book) self.old.books (Train card.now.number company kind)) }
        ensures made { self.new.books ≡ after (B.meaning self.old.book) self.old.books (Train card.now.number company kind) }
        ensures same { self.new.book ≡ self.old.book }
    {
        self.make(
            CallName::Train,
            Call::Train {
                card: card.number,
                company,
                kind,
            },
        )
    }

    pub fn done(&mut self, card: &OperatingCard, company: u8) -> Result<(), TableFault>
        ensures told { result ≡ in_call CallName.Done (answer (B.meaning self.old.book) self.old.books (Done card.now.number company)) }
        ensures made { self.new.books ≡ after (B.meaning self.old.book) self.old.books (Done card.now.number company) }
        ensures same { self.new.book ≡ self.old.book }
    {
        self.make(
            CallName::Done,
            Call::Done {
                card: card.number,
                company,
            },
        )
    }

    // A refusal gives the card back, as in close.
    pub fn reopen(&mut self, card: OperatingCard) -> Result<StockCard, (TableFault, OperatingCard)>
        ensures told { told_by result ≡ in_call CallName.Reopen (answer (B.meaning self.old.book) self.old.books (Reopen card.number)) }
        ensures card { MatchResult result (λ next. next.number ≡ self.old.books.round + 1) (λ back. back.1 ≡ card) }
        ensures made { self.new.books ≡ after (B.meaning self.old.book) self.old.books (Reopen card.number) }
        ensures same { self.new.book ≡ self.old.book }
    {
        match self.make(CallName::Reopen, Call::Reopen { card: card.number }) {
            Ok(()) => Ok(StockCard {
                number: self.books.round,
            }),
            Err(fault) => Err((fault, card)),
        }
    }
}
