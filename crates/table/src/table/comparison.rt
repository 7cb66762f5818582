// Two tables side by side.
ghost use Rattle.table.specs.Comparing.{TablesCompared};

use super::Table;
use comparing::same_hands as same_books;
use rulebook::book::RuleBook;

impl<B: RuleBook> Table<B> {
    // Are they equal in every hand?
    pub fn same_hands(&self, other: &Table<B>) -> bool
        ensures { TablesCompared (B.meaning self.now.book) (B.meaning other.now.book) self.now.books other.now.books result }
    {
        same_books(&self.books, &other.books)
    }
}
