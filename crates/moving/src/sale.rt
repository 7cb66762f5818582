// What a sale moves.
ghost use Rattle.ledger.specs.Stock.{sell_exchange, sell_crossings};

use crate::director::exchange_director;
use crate::moves::Moves;
use holdings::largest_other_of;
use judging::sale::Sale;
use ledger::certificates::lowest;
use ledger::reading::seat_papers;
use rulebook::book::RuleBook;

fn exchange_before_sale<M: Moves>(moves: &mut M, sale: Sale)
    ensures { M.Moved moves.old (sell_exchange (M.books_of moves.old) sale.seat sale.company sale.tenths) moves.new }
{
    if sale.loses_lead(moves.books()) {
        let new = largest_other_of(moves.books(), sale.company, sale.seat);
        exchange_director(moves, sale.company, new, sale.seat);
    }
}

pub fn move_sale<M: Moves, B: RuleBook>(moves: &mut M, book: &B, sale: Sale)
    ensures { M.Moved moves.old (sell_crossings (B.meaning book.now) (M.books_of moves.old) sale.seat sale.company sale.tenths) moves.new }
{
    let Sale {
        seat,
        company,
        tenths,
    } = sale;
    let marks = sale.marks(book, moves.books());
    exchange_before_sale(moves, sale);
    let seller = seat_papers(seat);
    let held = moves.books().papers(company, seller).certificates();
    moves.pay(0, usize::from(seat), marks);
    moves.hand_over(company, seller, 1, lowest(held, tenths, 1));
}
