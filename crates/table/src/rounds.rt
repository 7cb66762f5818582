// The ends of turns and rounds.
ghost use Rattle.std.specs.Prelude.{◌≡◌, ◌≤◌};
ghost use Rattle.ledger.specs.Operating.{noted_served, done_after, reopen_after};
ghost use Rattle.ledger.specs.Stock.{end_after, close_after, next_first};

use holdings::{next_company_of, next_seat};
use ledger::books::{Books, Operating, Stock};
use ledger::company::Company;
use ledger::reading::slot;
use rulebook::book::RuleBook;

pub(crate) fn end_turn(books: &mut Books, seat: u8)
    requires { books.old.stock.passes ≤ 254 }
    ensures { books.new ≡ end_after books.old seat }
{
    books.stock = Stock {
        first: books.stock.first,
        turn: next_seat(books, seat),
        passes: if books.stock.acted {
            0
        } else {
            books.stock.passes + 1
        },
        bought: false,
        acted: false,
        last: books.stock.last,
    };
}

fn next_first_seat(books: &Books) -> u8
    ensures { result ≡ next_first books.now books.now.stock.last }
{
    match books.stock.last {
        Some(last) => next_seat(books, last),
        None => books.stock.first,
    }
}

pub(crate) fn close_round<B: RuleBook>(book: &B, books: &mut Books)
    requires { books.old.round ≤ 9999 }
    ensures { books.new ≡ close_after (B.meaning book.now) books.old }
{
    books.stock.first = next_first_seat(books);
    books.round += 1;
    books.operating = Operating {
        company: None,
        paid: false,
    };
    let company = next_company_of(book, books);
    books.operating = Operating {
        company,
        paid: false,
    };
}

// Nothing is noted outside the row. Its length is asked, as what a row becomes through get_mut is not proved.
fn note_served(books: &mut Books, company: u8)
    ensures { books.new ≡ noted_served books.old company }
{
    let at = slot(company);
    let companies: &mut [Company] = &mut books.companies;
    if at < companies.len() {
        companies[at].served = books.round;
    }
}

pub(crate) fn finish_turn<B: RuleBook>(book: &B, books: &mut Books, company: u8)
    ensures { books.new ≡ done_after (B.meaning book.now) books.old company }
{
    note_served(books, company);
    let company = next_company_of(book, books);
    books.operating = Operating {
        company,
        paid: false,
    };
}

pub(crate) fn reopen_round(books: &mut Books)
    requires { books.old.round ≤ 9999 }
    ensures { books.new ≡ reopen_after books.old }
{
    let first = books.stock.first;
    books.round += 1;
    books.stock = Stock {
        first,
        turn: first,
        passes: 0,
        bought: false,
        acted: false,
        last: None,
    };
}
