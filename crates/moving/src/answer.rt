ghost use Rattle.std.specs.Prelude.{◌≡◌};
ghost use Rattle.ledger.specs.Lives.{answer};

use faults::table::TableRefusal;
use judging::rounds::{judge_close, judge_reopen, on_stock_turn};
use judging::sale::Sale;
use ledger::books::Books;
use ledger::call::Call;
use operating::payout::judge_payout;
use operating::train::judge_train;
use operating::turn::{judge_bill, judge_done};
use purchasing::Purchase;
use rulebook::book::RuleBook;

// What a call would be answered, with nothing moved. Inlined, as most callers name the call, so that no match is left.
#[inline(always)]
pub fn answer_to<B: RuleBook>(book: &B, books: &Books, call: Call) -> Result<(), TableRefusal>
    ensures { result ≡ answer (B.meaning book.now) books.now call }
{
    match call {
        Call::Sell {
            card,
            seat,
            company,
            tenths,
        } => Sale::new(seat, company, tenths).judge(book, books, card),
        Call::Buy {
            card,
            seat,
            company,
            source,
            par,
        } => Purchase::new(seat, company, source, par).judge(book, books, card),
        Call::End { card, seat } => on_stock_turn(books, card, seat),
        Call::Close { card } => judge_close(books, card),
        Call::Bill {
            card,
            company,
            amount,
        } => judge_bill(books, card, company, amount),
        Call::Payout {
            card,
            company,
            mode,
            revenue,
        } => judge_payout(book, books, card, company, mode, revenue),
        Call::Train {
            card,
            company,
            kind,
        } => judge_train(book, books, card, company, kind),
        Call::Done { card, company } => judge_done(book, books, card, company),
        Call::Reopen { card } => judge_reopen(books, card),
    }
}
