// Any call with the number of its card.
ghost use Rattle.std.specs.Prelude.{◌≡◌};
ghost use Rattle.faults.specs.Layers.{in_call};
ghost use Rattle.ledger.specs.Lives.{answer, after};

use super::Table;
use crate::calls::make;
use faults::table::{CallName, TableFault, in_call};
use ledger::call::Call;
use rulebook::book::RuleBook;

impl<B: RuleBook> Table<B> {
    // Inlined, so that each method makes its own call and no other.
    #[inline(always)]
    pub(crate) fn make(&mut self, name: CallName, call: Call) -> Result<(), TableFault>
        ensures told { result ≡ in_call name (answer (B.meaning self.old.book) self.old.books call) }
        ensures made { self.new.books ≡ after (B.meaning self.old.book) self.old.books call }
        ensures same { self.new.book ≡ self.old.book }
    {
        in_call(name, make(&self.book, &mut self.books, call))
    }
}
