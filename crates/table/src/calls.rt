// The nine calls on a table's books: judged first, then made.
ghost use Rattle.std.specs.Prelude.{◌≡◌};
ghost use Rattle.ledger.specs.Answers.{granted};
ghost use Rattle.ledger.specs.Lives.{answer, granted_after, after};
ghost use Rattle.table.specs.Bounds.{Bounded};

use crate::payout::make_payout;
use crate::purchase::make_purchase;
use crate::rounds::{close_round, end_turn, finish_turn, reopen_round};
use crate::sale::make_sale;
use faults::table::TableRefusal;
use judging::sale::Sale;
use ledger::books::Books;
use ledger::call::Call;
use moving::answer_to;
use moving::payout::move_bill;
use moving::train::move_train;
use purchasing::Purchase;
use rulebook::book::RuleBook;

// Inlined, and `make` too: a method of the table names its call, so that no match on it is left there.
#[inline(always)]
fn make_granted<B: RuleBook>(book: &B, books: &mut Books, call: Call)
    requires judged { answer (B.meaning book.now) books.old call ≡ granted }
    requires bounded { Bounded books.old }
    ensures { books.new ≡ granted_after (B.meaning book.now) books.old call }
{
    match call {
        Call::Sell {
            seat,
            company,
            tenths,
            ..
        } => make_sale(book, books, Sale::new(seat, company, tenths)),
        Call::Buy {
            seat,
            company,
            source,
            par,
            ..
        } => make_purchase(book, books, Purchase::new(seat, company, source, par)),
        Call::End { seat, .. } => end_turn(books, seat),
        Call::Close { .. } => close_round(book, books),
        Call::Bill {
            company,
            amount,
            ..
        } => move_bill(books, company, amount),
        Call::Payout {
            company,
            mode,
            revenue,
            ..
        } => make_payout(book, books, company, mode, revenue),
        Call::Train { company, kind, .. } => move_train(books, book, company, kind),
        Call::Done { company, .. } => finish_turn(book, books, company),
        Call::Reopen { .. } => reopen_round(books),
    }
}

// A refused call leaves the books as they were.
#[inline(always)]
pub(crate) fn make<B: RuleBook>(book: &B, books: &mut Books, call: Call) -> Result<(), TableRefusal>
    requires { Bounded books.old }
    ensures told { result ≡ answer (B.meaning book.now) books.old call }
    ensures made { books.new ≡ after (B.meaning book.now) books.old call }
{
    answer_to(book, books, call)?;
    make_granted(book, books, call);
    Ok(())
}
