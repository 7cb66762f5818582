// What a table shows: its rule book and its books, to be read.
ghost use Rattle.std.specs.Prelude.{◌≡◌};

use super::Table;
use ledger::books::Books;
use rulebook::book::RuleBook;

impl<B: RuleBook> Table<B> {
    pub fn book(&self) -> &B
        ensures { result.now ≡ self.now.book }
    {
        &self.book
    }

    pub fn books(&self) -> &Books
        ensures { result.now ≡ self.now.books }
    {
        &self.books
    }
}
