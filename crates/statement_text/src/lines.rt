ghost use Rattle.std.specs.Prelude.{◌≡◌, []};
ghost use Rattle.text.specs.Text.{shown, added};
ghost use Rattle.statement_text.specs.Statement.{director_number, seat_line_of, company_line_of, lines_to, statement_of};

use holdings::{certificates_held_by, director_of, holds_director, price_now};
use ledger::books::Books;
use rulebook::book::RuleBook;
use text::Text;

pub(crate) fn statement_lines<B: RuleBook>(book: &B, books: &Books) -> Text
    ensures { shown result ≡ added [] (statement_of (B.meaning book.now) books.now) }
{
    let mut text = Text::empty();
    text.push_bank_line(books.marks(0));
    push_seats(&mut text, book, books);
    push_companies(&mut text, book, books);
    text
}

fn push_seats<B: RuleBook>(text: &mut Text, book: &B, books: &Books)
    ensures { shown text.new ≡ added (shown text.old) (lines_to (seat_line_of (B.meaning book.now) books.now) books.now.players) }
{
    for seat in 1..=books.players {
        push_seat(text, book, books, seat);
    }
}

fn push_seat<B: RuleBook>(text: &mut Text, book: &B, books: &Books, seat: u8)
    ensures { shown text.new ≡ added (shown text.old) (seat_line_of (B.meaning book.now) books.now seat) }
{
    let cash = books.marks(usize::from(seat));
    let certificates = certificates_held_by(books, seat, book.companies());
    text.push_seat_line(seat, cash, certificates);
}

fn push_companies<B: RuleBook>(text: &mut Text, book: &B, books: &Books)
    ensures { shown text.new ≡ added (shown text.old) (lines_to (company_line_of (B.meaning book.now) books.now) (B.meaning book.now).companies) }
{
    for company in 1..=book.companies() {
        push_company(text, book, books, company);
    }
}

// A company whose director's certificate is still in the offering has no line.
fn push_company<B: RuleBook>(text: &mut Text, book: &B, books: &Books, company: u8)
    ensures { shown text.new ≡ added (shown text.old) (company_line_of (B.meaning book.now) books.now company) }
{
    if holds_director(books, company, 0) {
        return;
    }
    let cash = books.marks(books.treasury(company));
    let price = price_now(book, books, company);
    let director = director_number(books, company);
    let offering = books.tenths(company, 0);
    let pool = books.tenths(company, 1);
    text.push_company_line(company, cash, price, director, offering, pool);
}

fn director_number(books: &Books, company: u8) -> u8
    ensures { result ≡ director_number books.now company }
{
    director_of(books, company).unwrap_or(0)
}
