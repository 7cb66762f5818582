// What a purchase of a train moves.
ghost use Rattle.ledger.specs.Holdings.{director};
ghost use Rattle.ledger.specs.Operating.{help, train_crossings};

use crate::moves::Moves;
use holdings::director_of;
use kinds::train_load::TrainLoad;
use operating::train::{is_helped, missing_marks};
use rulebook::book::RuleBook;

fn get_help<M: Moves>(moves: &mut M, company: u8, price: u16)
    ensures { M.Moved moves.old (help (M.books_of moves.old) company price (director (M.books_of moves.old) company)) moves.new }
{
    match director_of(moves.books(), company) {
        Some(seat) if is_helped(moves.books(), company, price) => {
            let books = moves.books();
            let marks = missing_marks(books, company, price);
            let treasury = books.treasury(company);
            moves.pay(usize::from(seat), treasury, marks);
        }
        _ => {}
    }
}

pub fn move_train<M: Moves, B: RuleBook>(moves: &mut M, book: &B, company: u8, kind: u8)
    ensures { M.Moved moves.old (train_crossings (B.meaning book.now) (M.books_of moves.old) company kind) moves.new }
{
    let price = book.train_price(kind);
    let treasury = moves.books().treasury(company);
    get_help(moves, company, price);
    moves.pay(treasury, 0, u32::from(price));
    moves.move_trains(0, usize::from(company), TrainLoad { kind, count: 1 });
}
