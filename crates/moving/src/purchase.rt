// What a purchase moves.
ghost use Rattle.std.specs.Prelude.{[], ◌∷◌, if◌then◌else◌};
ghost use Rattle.ledger.specs.Crossings.{pays};
ghost use Rattle.ledger.specs.Holdings.{bank, treasury, director};
ghost use Rattle.ledger.specs.Stock.{purchase, overtakes, buy_crossings};

use crate::director::exchange_director;
use crate::moves::Moves;
use holdings::{director_of, seat_tenths};
use ledger::certificates::lowest;
use ledger::reading::seat_papers;
use purchasing::Purchase;
use rulebook::book::RuleBook;

fn pay_and_receive<M: Moves, B: RuleBook>(moves: &mut M, book: &B, asked: Purchase)
    ensures { M.Moved moves.old (purchase (B.meaning book.now) (M.books_of moves.old) asked.seat asked.company asked.source asked.space) moves.new }
{
    let books = moves.books();
    let marks = asked.cost(book, books);
    let payee = asked.payee(book, books);
    let load = lowest(asked.source_set(books), 1, 0);
    let (giver, receiver) = (usize::from(asked.source), seat_papers(asked.seat));
    moves.pay(usize::from(asked.seat), payee, marks);
    moves.hand_over(asked.company, giver, receiver, load);
}

fn overtake<M: Moves>(moves: &mut M, seat: u8, company: u8)
    ensures { M.Moved moves.old (overtakes (M.books_of moves.old) seat company (director (M.books_of moves.old) company)) moves.new }
{
    match director_of(moves.books(), company) {
        Some(old)
            if old != seat
                && seat_tenths(moves.books(), company, old)
                    < seat_tenths(moves.books(), company, seat) => {
            exchange_director(moves, company, seat, old);
        }
        _ => {}
    }
}

fn pay_float<M: Moves>(moves: &mut M, company: u8, floating: bool, money: u32)
    ensures { M.Moved moves.old (if floating then pays bank (treasury (M.books_of moves.old) company) money ∷ [] else []) moves.new }
{
    if floating {
        let treasury = moves.books().treasury(company);
        moves.pay(0, treasury, money);
    }
}

pub fn move_purchase<M: Moves, B: RuleBook>(moves: &mut M, book: &B, asked: Purchase)
    ensures { M.Moved moves.old (buy_crossings (B.meaning book.now) (M.books_of moves.old) asked.seat asked.company asked.source asked.space) moves.new }
{
    let books = moves.books();
    let floating = asked.is_floating(book, books);
    let money = asked.float_payment(book, books);
    pay_and_receive(moves, book, asked);
    overtake(moves, asked.seat, asked.company);
    pay_float(moves, asked.company, floating, money);
}
