ghost use Rattle.std.specs.Prelude.{◌≡◌, IfOk};
ghost use Rattle.ledger.specs.Lives.{crossings_of, crossings};
ghost use Rattle.crossings.specs.Noted.{Noted};
ghost use Rattle.moving.specs.Views.{listed};

use crate::trial::Trial;
use judging::sale::Sale;
use ledger::books::Books;
use ledger::call::Call;
use moving::answer_to;
use moving::crossing::Crossing;
use moving::payout::{move_bill, move_payout};
use moving::purchase::move_purchase;
use moving::sale::move_sale;
use moving::train::move_train;
use purchasing::Purchase;
use rulebook::book::RuleBook;
use std::alloc::{AllocError, Global};

// Only sales, purchases, bills, payouts and trains move anything.
fn try_call<B: RuleBook>(trial: &mut Trial, book: &B, call: Call)
    ensures { Noted trial.old trial.new (crossings_of (B.meaning book.now) trial.old.books call) }
{
    match call {
        Call::Sell {
            seat,
            company,
            tenths,
            ..
        } => move_sale(trial, book, Sale::new(seat, company, tenths)),
        Call::Buy {
            seat,
            company,
            source,
            par,
            ..
        } => move_purchase(trial, book, Purchase::new(seat, company, source, par)),
        Call::Bill {
            company,
            amount,
            ..
        } => move_bill(trial, company, amount),
        Call::Payout {
            company,
            mode,
            revenue,
            ..
        } => move_payout(trial, company, book.split(mode, revenue)),
        Call::Train { company, kind, .. } => move_train(trial, book, company, kind),
        Call::End { .. } | Call::Close { .. } | Call::Done { .. } | Call::Reopen { .. } => {}
    }
}

// What crosses if the call is made now, in order; nothing where it is refused. The only error is want of memory.
pub fn crossings_of<B: RuleBook>(
    heap: Global,
    book: &B,
    books: &Books,
    call: Call,
) -> Result<Vec<Crossing>, AllocError>
    ensures { IfOk result (λ v. listed v.items ≡ crossings (B.meaning book.now) books.now call) }
{
    let mut trial = Trial::start(heap, books);
    if answer_to(book, books, call).is_ok() {
        try_call(&mut trial, book, call);
    }
    trial.crossings
}
