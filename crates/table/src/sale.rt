// A sale: what it moves, and what it notes of the company and of the round.
ghost use Rattle.std.specs.Prelude.{◌≡◌};
ghost use Rattle.ledger.specs.Stock.{sell_after};

use judging::sale::Sale;
use ledger::books::Books;
use moving::sale::move_sale;
use rulebook::book::RuleBook;

pub(crate) fn make_sale<B: RuleBook>(book: &B, books: &mut Books, sale: Sale)
    ensures { books.new ≡ sell_after (B.meaning book.now) books.old sale.seat sale.company sale.tenths }
{
    let space = book.after_sale(books.space(sale.company), sale.tenths);
    move_sale(books, book, sale);
    books.note_sale(sale.seat, sale.company, space);
}
