// What a bill and a payout move.
ghost use Rattle.ledger.specs.Operating.{bill_crossings, dividends, payout_crossings};

use crate::moves::Moves;
use operating::payout::{dividend_of, share_of_company};
use rulebook::split::Split;

pub fn move_bill<M: Moves>(moves: &mut M, company: u8, amount: u16)
    ensures { M.Moved moves.old (bill_crossings (M.books_of moves.old) company amount) moves.new }
{
    let treasury = moves.books().treasury(company);
    moves.pay(treasury, 0, u32::from(amount));
}

// A loop over 1..=players leaves in two ways and has more to prove.
fn pay_dividends<M: Moves>(moves: &mut M, company: u8, dividend: u16)
    ensures { M.Moved moves.old (dividends (M.books_of moves.old) company dividend 1 (M.books_of moves.old).players) moves.new }
{
    for before in 0..moves.books().players {
        let marks = dividend_of(moves.books(), company, before as usize + 2, dividend);
        moves.pay(0, before as usize + 1, marks);
    }
}

// Nothing where the rule book has no such mode.
pub fn move_payout<M: Moves>(moves: &mut M, company: u8, split: Option<Split>)
    ensures { M.Moved moves.old (payout_crossings (M.books_of moves.old) company split) moves.new }
{
    if let Some(split) = split {
        let books = moves.books();
        let kept = share_of_company(books, company, split);
        let treasury = books.treasury(company);
        pay_dividends(moves, company, split.dividend);
        moves.pay(0, treasury, kept);
    }
}
