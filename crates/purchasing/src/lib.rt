// May a seat buy, and what does the purchase cost and bring about?
#![tactic(auto)]

ghost use Rattle.std.specs.Prelude.{◌≡◌, ◌+◌, not, ◌&&◌, ◌||◌, pos, ◌+ℤ◌, ◌-ℤ◌, nat_lt};
ghost use Rattle.ledger.specs.Holdings.{bank, marks_at, seat_tenths, certificates_held, company_of};
ghost use Rattle.ledger.specs.Stock.{source_set, buys_director, bought_size, sold_this_round, par_for, cost, payee, gone_then, floats, float_money, float_short, may_buy, buy_answer, space_then};

use faults::table::TableRefusal;
use hands::carrying::can_carry;
use hands::hand::Hand;
use holdings::{certificates_held_by, holds_director, price_now, seat_tenths};
use judging::rounds::{is_below_floor, is_company_of, on_stock_turn};
use kinds::certificate_set::CertificateSet;
use ledger::books::Books;
use rulebook::book::RuleBook;
use rulebook::funding::Funding;

// A purchase that a seat asks for: a company's lowest certificate, from the offering (source 0) or the pool (source 1).
// The space counts where it opens the company.
#[derive(Clone, Copy, PartialEq, Eq, Debug)]
pub struct Purchase {
    pub seat: u8,
    pub company: u8,
    pub source: u8,
    pub space: u16,
}

// What it costs and brings about.
impl Purchase {
    pub fn new(seat: u8, company: u8, source: u8, space: u16) -> Purchase
        ensures { result ≡ record { seat = seat; company = company; source = source; space = space } }
    {
        Self {
            seat,
            company,
            source,
            space,
        }
    }

    pub fn source_set(self, books: &Books) -> CertificateSet
        ensures { result.bits ≡ source_set books.now self.company self.source }
    {
        books
            .papers(self.company, usize::from(self.source))
            .certificates()
    }

    // The lowest certificate of the source is the director's.
    fn buys_director(self, books: &Books) -> bool
        ensures { result ≡ buys_director books.now self.company self.source }
    {
        holds_director(books, self.company, usize::from(self.source))
    }

    fn size(self, books: &Books) -> u8
        ensures { result ≡ bought_size books.now self.company self.source }
    {
        if self.buys_director(books) { 2 } else { 1 }
    }

    pub fn par<B: RuleBook>(self, book: &B, books: &Books) -> u16
        ensures { result ≡ par_for (B.meaning book.now) books.now self.company self.source self.space }
    {
        if self.buys_director(books) {
            book.price(self.space)
        } else {
            books.par(self.company)
        }
    }

    pub fn cost<B: RuleBook>(self, book: &B, books: &Books) -> u32
        ensures { result ≡ cost (B.meaning book.now) books.now self.company self.source self.space }
    {
        if self.source == 0 {
            u32::from(self.par(book, books)) * u32::from(self.size(books))
        } else {
            u32::from(price_now(book, books, self.company))
        }
    }

    // Offering papers of a company that had floated pay the company, under sold funding.
    pub fn payee<B: RuleBook>(self, book: &B, books: &Books) -> usize
        ensures { result ≡ payee (B.meaning book.now) books.now self.company self.source }
    {
        match book.funding() {
            Funding::Sold if self.source == 0 && books.floated(self.company) => {
                books.treasury(self.company)
            }
            _ => 0,
        }
    }

    // Tenths gone from the offering once the certificate has left: at most ten before it, so they fit a u8.
    fn gone_after(self, books: &Books) -> u8
        ensures { result ≡ gone_then books.now self.company self.source }
    {
        let gone = 10u32.saturating_sub(books.tenths(self.company, 0)) as u8;
        if self.source == 0 {
            gone + self.size(books)
        } else {
            gone
        }
    }

    pub fn is_floating<B: RuleBook>(self, book: &B, books: &Books) -> bool
        ensures { result ≡ floats (B.meaning book.now) books.now self.company self.source }
    {
        !books.floated(self.company) && book.float(self.company) <= self.gone_after(books)
    }

    pub fn float_payment<B: RuleBook>(self, book: &B, books: &Books) -> u32
        ensures { result ≡ float_money (B.meaning book.now) books.now self.company self.source self.space }
    {
        let tenths = book.funding().tenths(self.gone_after(books));
        u32::from(tenths) * u32::from(self.par(book, books))
    }

    // Where the token stands afterwards.
    pub fn token_after(self, books: &Books) -> u16
        ensures { result ≡ space_then books.now self.company self.source self.space }
    {
        if self.buys_director(books) {
            self.space
        } else {
            books.space(self.company)
        }
    }

    pub fn floated_after<B: RuleBook>(self, book: &B, books: &Books) -> bool
        ensures { result ≡ ((company_of books.now self.company).floated || floats (B.meaning book.now) books.now self.company self.source) }
    {
        books.floated(self.company) || self.is_floating(book, books)
    }
}

// What may refuse it.
impl Purchase {
    fn sold_in_round(self, books: &Books) -> bool
        ensures { result ≡ sold_this_round books.now self.seat self.company }
    {
        books.last_sold(self.seat, self.company) == books.round
    }

    fn lacks_par<B: RuleBook>(self, book: &B, books: &Books) -> bool
        ensures { result ≡ (buys_director books.now self.company self.source && not ((B.meaning book.now).par self.space)) }
    {
        self.buys_director(books) && !book.is_par(self.space)
    }

    fn passes_certificate_limit<B: RuleBook>(self, book: &B, books: &Books) -> bool
        ensures { result ≡ nat_lt ((B.meaning book.now).certificate_limit books.now.players) (certificates_held books.now self.seat (B.meaning book.now).companies + 1) }
    {
        u64::from(certificates_held_by(books, self.seat, book.companies())) + 1
            > u64::from(book.certificate_limit(books.players))
    }

    fn passes_share_limit<B: RuleBook>(self, book: &B, books: &Books) -> bool
        ensures { result ≡ nat_lt (B.meaning book.now).share_limit (seat_tenths books.now self.company self.seat + bought_size books.now self.company self.source) }
    {
        u64::from(seat_tenths(books, self.company, self.seat)) + u64::from(self.size(books))
            > u64::from(book.share_limit())
    }

    // What the bank has once it got the cost and gave the float payment.
    fn bank_after_float<B: RuleBook>(self, book: &B, books: &Books) -> i64
        ensures { result ≡ marks_at books.now bank +ℤ pos (cost (B.meaning book.now) books.now self.company self.source self.space) -ℤ pos (float_money (B.meaning book.now) books.now self.company self.source self.space) }
    {
        i64::from(books.marks(0)) + i64::from(self.cost(book, books))
            - i64::from(self.float_payment(book, books))
    }

    fn cannot_float<B: RuleBook>(self, book: &B, books: &Books) -> bool
        ensures { result ≡ float_short (B.meaning book.now) books.now self.company self.source self.space }
    {
        self.is_floating(book, books) && is_below_floor(self.bank_after_float(book, books))
    }

    fn allow<B: RuleBook>(self, book: &B, books: &Books) -> Result<(), TableRefusal>
        ensures { result ≡ may_buy (B.meaning book.now) books.now self.seat self.company self.source self.space }
    {
        if !is_company_of(book, self.company) {
            return Err(TableRefusal::NoSuchCompany);
        }
        if books.stock.bought {
            return Err(TableRefusal::AlreadyBought);
        }
        if self.sold_in_round(books) {
            return Err(TableRefusal::SoldThisRound);
        }
        if self.source > 1 {
            return Err(TableRefusal::NoSuchSource);
        }
        if self.source_set(books).bits == 0 {
            return Err(TableRefusal::SourceEmpty);
        }
        if self.lacks_par(book, books) {
            return Err(TableRefusal::NoParSpace);
        }
        if self.passes_certificate_limit(book, books) {
            return Err(TableRefusal::CertificateLimit);
        }
        if self.passes_share_limit(book, books) {
            return Err(TableRefusal::ShareLimit);
        }
        Ok(())
    }

    pub fn judge<B: RuleBook>(self, book: &B, books: &Books, card: u16) -> Result<(), TableRefusal>
        ensures { result ≡ buy_answer (B.meaning book.now) books.now card self.seat self.company self.source self.space }
    {
        on_stock_turn(books, card, self.seat)?;
        self.allow(book, books)?;
        can_carry(
            &books.cash,
            usize::from(self.seat),
            self.payee(book, books),
            self.cost(book, books),
        )?;
        if self.cannot_float(book, books) {
            return Err(TableRefusal::BankFloor);
        }
        Ok(())
    }
}
