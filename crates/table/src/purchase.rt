// A purchase: what it moves, and what it notes of the company and of the round.
ghost use Rattle.std.specs.Prelude.{◌≡◌};
ghost use Rattle.ledger.specs.Stock.{buy_after, noted_purchase};

use ledger::books::Books;
use ledger::company::Company;
use ledger::reading::slot;
use moving::purchase::move_purchase;
use purchasing::Purchase;
use rulebook::book::RuleBook;

// Nothing is noted outside the row. Its length is asked, as what a row becomes through get_mut is not proved.
fn note_purchase(books: &mut Books, seat: u8, company: u8, space: u16, par: u16, floated: bool)
    ensures { books.new ≡ noted_purchase books.old seat company space par floated }
{
    books.stock.bought = true;
    books.stock.acted = true;
    books.stock.last = Some(seat);
    let at = slot(company);
    let companies: &mut [Company] = &mut books.companies;
    if at < companies.len() {
        let record = &mut companies[at];
        record.space = space;
        record.par = par;
        record.floated = floated;
    }
}

pub(crate) fn make_purchase<B: RuleBook>(book: &B, books: &mut Books, asked: Purchase)
    ensures { books.new ≡ buy_after (B.meaning book.now) books.old asked.seat asked.company asked.source asked.space }
{
    let token = asked.token_after(books);
    let par = asked.par(book, books);
    let floated = asked.floated_after(book, books);
    move_purchase(books, book, asked);
    note_purchase(books, asked.seat, asked.company, token, par, floated);
}
