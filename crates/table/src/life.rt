// The lives of two tables, led by the code of the calls and then compared.
ghost use Rattle.std.specs.Prelude.{◌≡◌, Err, fold, MatchResult};
ghost use Rattle.faults.specs.Layers.{in_call};
ghost use Rattle.ledger.specs.Lives.{after};
ghost use Rattle.ledger.specs.Opening.{open_answer};
ghost use Rattle.table.specs.Bounds.{Bounded};
ghost use Rattle.table.specs.Comparing.{Compared};

use crate::calls::make;
use comparing::same_hands;
use faults::table::{CallName, TableFault, in_call};
use ledger::books::Books;
use ledger::call::Call;
use rulebook::book::RuleBook;
use setup::open_books;

// Granted or refused: a refused call leaves the books as they were.
fn lead_books<B: RuleBook>(book: &B, books: &mut Books, calls: &[Call])
    requires { Bounded books.old }
    ensures { books.new ≡ fold (after (B.meaning book.now)) books.old calls.now }
{
    for call in calls {
        let _ = make(book, books, *call);
    }
}

// Opens two tables alike, has each make its calls, and tells whether they are then equal in every hand.
pub fn compare_lives<B: RuleBook>(
    book: &B,
    players: u8,
    one: &[Call],
    other: &[Call],
) -> Result<bool, TableFault>
    ensures { MatchResult result (λ same. Compared (B.meaning book.now) players one.now other.now same) (λ e. in_call CallName.Open (open_answer (B.meaning book.now) players) ≡ Err e) }
{
    let mut first = in_call(CallName::Open, open_books(book, players))?;
    let mut second = in_call(CallName::Open, open_books(book, players))?;
    lead_books(book, &mut first, one);
    lead_books(book, &mut second, other);
    Ok(same_hands(&first, &second))
}
