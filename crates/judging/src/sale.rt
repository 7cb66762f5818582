// May a seat sell, and what does the sale bring?
ghost use Rattle.std.specs.Prelude.{◌≡◌, ◌*◌, ◌||◌, not, ◌==◌, nat_lt};
ghost use Rattle.ledger.specs.Holdings.{seat_tenths, price_of};
ghost use Rattle.ledger.specs.Stock.{director_needed, another_leads, sell_answer};

use crate::rounds::{bank_cannot_give, is_company_of, on_stock_turn};
use faults::table::TableRefusal;
use holdings::{holds_director, largest_other_of, price_now, seat_tenths};
use ledger::books::Books;
use ledger::reading::seat_papers;
use rulebook::book::RuleBook;

// A sale that a seat asks for.
#[derive(Clone, Copy, PartialEq, Eq, Debug)]
pub struct Sale {
    pub seat: u8,
    pub company: u8,
    pub tenths: u8,
}

impl Sale {
    pub fn new(seat: u8, company: u8, tenths: u8) -> Sale
        ensures { result ≡ record { seat = seat; company = company; tenths = tenths } }
    {
        Self {
            seat,
            company,
            tenths,
        }
    }

    fn holds_tenths(self, books: &Books) -> bool
        ensures { not result ≡ (self.tenths == 0 || nat_lt (seat_tenths books.now self.company self.seat) self.tenths) }
    {
        self.tenths > 0 && u32::from(self.tenths) <= seat_tenths(books, self.company, self.seat)
    }

    // What it brings, at the price before the step.
    pub fn marks<B: RuleBook>(self, book: &B, books: &Books) -> u32
        ensures { result ≡ self.tenths * price_of (B.meaning book.now) books.now self.company }
    {
        u32::from(self.tenths) * u32::from(price_now(book, books, self.company))
    }

    fn needs_director(self, books: &Books) -> bool
        ensures { result ≡ director_needed books.now self.seat self.company self.tenths }
    {
        let Sale {
            seat,
            company,
            tenths,
        } = self;
        holds_director(books, company, seat_papers(seat))
            && seat_tenths(books, company, seat).saturating_sub(u32::from(tenths)) < 2
            && seat_tenths(books, company, largest_other_of(books, company, seat)) < 2
    }

    pub fn loses_lead(self, books: &Books) -> bool
        ensures { result ≡ another_leads books.now self.seat self.company self.tenths }
    {
        let Sale {
            seat,
            company,
            tenths,
        } = self;
        holds_director(books, company, seat_papers(seat))
            && seat_tenths(books, company, seat).saturating_sub(u32::from(tenths))
                < seat_tenths(books, company, largest_other_of(books, company, seat))
    }

    pub fn judge<B: RuleBook>(self, book: &B, books: &Books, card: u16) -> Result<(), TableRefusal>
        ensures { result ≡ sell_answer (B.meaning book.now) books.now card self.seat self.company self.tenths }
    {
        on_stock_turn(books, card, self.seat)?;
        if !is_company_of(book, self.company) {
            return Err(TableRefusal::NoSuchCompany);
        }
        if books.stock.bought {
            return Err(TableRefusal::AlreadyBought);
        }
        if !self.holds_tenths(books) {
            return Err(TableRefusal::TenthsNotHeld);
        }
        if u64::from(books.tenths(self.company, 1)) + u64::from(self.tenths)
            > u64::from(book.pool_limit())
        {
            return Err(TableRefusal::PoolLimit);
        }
        if self.needs_director(books) {
            return Err(TableRefusal::DirectorNeeded);
        }
        if bank_cannot_give(books, self.marks(book, books)) {
            return Err(TableRefusal::BankFloor);
        }
        Ok(())
    }
}
