// Whose turn it is, and the calls that end a round.
ghost use Rattle.std.specs.Prelude.{◌≡◌, pos, ◌-ℤ◌};
ghost use Rattle.ledger.specs.Answers.{on_stock_turn, on_operating_turn, stock_card, operating_card, below_floor};
ghost use Rattle.ledger.specs.Holdings.{bank, marks_at, is_company};
ghost use Rattle.ledger.specs.Stock.{close_answer};
ghost use Rattle.ledger.specs.Operating.{reopen_answer};

use faults::table::TableRefusal;
use kinds::cash_floor::CashFloor;
use ledger::books::Books;
use rulebook::book::RuleBook;

// The last stock round.
const LAST_ROUND: u16 = 9_999;

fn is_stock_card(books: &Books, card: u16) -> bool
    ensures { result ≡ stock_card books.now card }
{
    card == books.round && books.round % 2 == 1
}

fn is_operating_card(books: &Books, card: u16) -> bool
    ensures { result ≡ operating_card books.now card }
{
    card == books.round && books.round % 2 == 0
}

pub fn is_company_of<B: RuleBook>(book: &B, company: u8) -> bool
    ensures { result ≡ is_company (B.meaning book.now) company }
{
    (1..=book.companies()).contains(&company)
}

// Do so many marks lie below the bank's floor?
pub fn is_below_floor(marks: i64) -> bool
    ensures { result ≡ below_floor marks }
{
    marks < i64::from(CashFloor::Overdraft.marks())
}

// Would the bank, giving so much, fall below its floor?
pub fn bank_cannot_give(books: &Books, marks: u32) -> bool
    ensures { result ≡ below_floor (marks_at books.now bank -ℤ pos marks) }
{
    is_below_floor(i64::from(books.marks(0)) - i64::from(marks))
}

pub fn on_stock_turn(books: &Books, card: u16, seat: u8) -> Result<(), TableRefusal>
    ensures { result ≡ on_stock_turn books.now card seat }
{
    if !is_stock_card(books, card) {
        return Err(TableRefusal::WrongCard);
    }
    if books.stock.passes >= books.players {
        return Err(TableRefusal::RoundOver);
    }
    if !(1..=books.players).contains(&seat) {
        return Err(TableRefusal::NoSuchSeat);
    }
    if seat != books.stock.turn {
        return Err(TableRefusal::NotOnTurn);
    }
    Ok(())
}

pub fn on_operating_turn(books: &Books, card: u16, company: u8) -> Result<(), TableRefusal>
    ensures { result ≡ on_operating_turn books.now card company }
{
    if !is_operating_card(books, card) {
        return Err(TableRefusal::WrongCard);
    }
    if books.operating.company != Some(company) {
        return Err(TableRefusal::CompanyNotOnTurn);
    }
    Ok(())
}

pub fn judge_close(books: &Books, card: u16) -> Result<(), TableRefusal>
    ensures { result ≡ close_answer books.now card }
{
    if !is_stock_card(books, card) {
        return Err(TableRefusal::WrongCard);
    }
    if books.stock.passes < books.players {
        return Err(TableRefusal::RoundNotOver);
    }
    if books.round == LAST_ROUND {
        return Err(TableRefusal::LastRound);
    }
    Ok(())
}

pub fn judge_reopen(books: &Books, card: u16) -> Result<(), TableRefusal>
    ensures { result ≡ reopen_answer books.now card }
{
    if !is_operating_card(books, card) {
        return Err(TableRefusal::WrongCard);
    }
    if books.operating.company.is_some() {
        return Err(TableRefusal::CompanyOnTurn);
    }
    Ok(())
}
