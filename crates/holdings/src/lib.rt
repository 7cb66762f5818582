// Who holds what, and who comes next: what the rules ask of the books.
#![tactic(auto)]

ghost use Rattle.std.specs.Prelude.{◌≡◌};
ghost use Rattle.ledger.specs.Holdings.{next_seat, holds_director, seat_tenths, director, largest_other, certificates_held, lowest_kind, has_train, waiting, price_of, better, next_company};

use ledger::books::Books;
use ledger::reading::seat_papers;
use rulebook::book::RuleBook;

pub fn next_seat(books: &Books, seat: u8) -> u8
    ensures { result ≡ next_seat books.now seat }
{
    if seat < books.players { seat + 1 } else { 1 }
}

pub fn seat_tenths(books: &Books, company: u8, seat: u8) -> u32
    ensures { result ≡ seat_tenths books.now company seat }
{
    books.tenths(company, seat_papers(seat))
}

pub fn holds_director(books: &Books, company: u8, place: usize) -> bool
    ensures { result ≡ holds_director books.now company place }
{
    books.papers(company, place).certificates().contains(0)
}

// The seat that holds the director's certificate.
pub fn director_of(books: &Books, company: u8) -> Option<u8>
    ensures { result ≡ director books.now company }
{
    (1..=books.players).find(|&seat| holds_director(books, company, seat_papers(seat)))
}

// The other seat with the most tenths; ties go to the nearest after this one. Two seats go on together here, which a
// fold over pairs would say no plainer.
pub fn largest_other_of(books: &Books, company: u8, seat: u8) -> u8
    ensures { result ≡ largest_other books.now company seat }
{
    let mut next = next_seat(books, seat);
    let mut best = next;
    for _seen in 2..books.players {
        next = next_seat(books, next);
        if seat_tenths(books, company, best) < seat_tenths(books, company, next) {
            best = next;
        }
    }
    best
}

// A seat's certificates over the first so many companies.
pub fn certificates_held_by(books: &Books, seat: u8, companies: u8) -> u32
    ensures { result ≡ certificates_held books.now seat companies }
{
    (1..=companies)
        .map(|company| books.papers(company, seat_papers(seat)).count())
        .sum()
}

// The lowest kind of train in the stack.
pub fn lowest_kind_of(books: &Books) -> Option<u8>
    ensures { result ≡ lowest_kind books.now }
{
    (0..8).find(|&kind| books.trains(0, kind) > 0)
}

pub fn owns_train(books: &Books, company: u8) -> bool
    ensures { result ≡ has_train books.now company }
{
    (0..8).any(|kind| books.trains(usize::from(company), kind) > 0)
}

fn is_waiting(books: &Books, company: u8) -> bool
    ensures { result ≡ waiting books.now company }
{
    books.floated(company) && books.served(company) != books.round
}

pub fn price_now<B: RuleBook>(book: &B, books: &Books, company: u8) -> u16
    ensures { result ≡ price_of (B.meaning book.now) books.now company }
{
    book.price(books.space(company))
}

// Among those without a turn in this round: highest price, then lowest number. A book has 8 companies at most; one fold over
// a range that ends before its end is unrolled, which `1..=n` and a filter before the fold are not.
pub fn next_company_of<B: RuleBook>(book: &B, books: &Books) -> Option<u8>
    ensures { result ≡ next_company (B.meaning book.now) books.now }
{
    (1..book.companies() + 1).fold(None, |best, company| {
        if is_waiting(books, company) {
            better_of(book, books, best, company)
        } else {
            best
        }
    })
}

fn better_of<B: RuleBook>(book: &B, books: &Books, best: Option<u8>, company: u8) -> Option<u8>
    ensures { result ≡ better (B.meaning book.now) books.now best company }
{
    match best {
        Some(first) if price_now(book, books, first) >= price_now(book, books, company) => best,
        _ => Some(company),
    }
}
