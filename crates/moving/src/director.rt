// The exchange of the director's certificate.
ghost use Rattle.ledger.specs.Stock.{exchange};

use crate::moves::Moves;
use kinds::certificate_set::CertificateSet;
use ledger::certificates::lowest;
use ledger::reading::seat_papers;

// The new director gives his two lowest certificates for the director's.
pub(crate) fn exchange_director<M: Moves>(moves: &mut M, company: u8, new: u8, old: u8)
    ensures { M.Moved moves.old (exchange (M.books_of moves.old) company new old) moves.new }
{
    let (new, old) = (seat_papers(new), seat_papers(old));
    let two = lowest(moves.books().papers(company, new).certificates(), 2, 0);
    moves.hand_over(company, new, old, two);
    moves.hand_over(company, old, new, CertificateSet { bits: 1 });
}
