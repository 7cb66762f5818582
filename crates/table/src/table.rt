ghost use Rattle.std.specs.Prelude.{◌≡◌, ℕ, ◌≤◌, Some};

use ledger::books::Books;
use rulebook::book::RuleBook;

mod comparison;
mod making;
mod opening;
mod operating_round;
mod reading;
mod stock_round;

// A rule book, which never changes, and the books kept by it.
#[derive(Drop)]
pub struct Table<B: RuleBook> {
    pub(crate) book: B,
    pub(crate) books: Books,
    ghost seated: { books.players ≤ 6 },
    ghost counted: { books.round ≤ 9999 },
    ghost numbered: { ((n : ℕ) → books.operating.company ≡ Some n → n ≤ 8) },
}
