// May a company pay a bill, and may it end its turn?
ghost use Rattle.std.specs.Prelude.{◌≡◌, Some};
ghost use Rattle.ledger.specs.Holdings.{director, lowest_kind};
ghost use Rattle.ledger.specs.Operating.{bill_answer, director_marks, can_reach, done_answer};

use faults::table::TableRefusal;
use hands::carrying::can_carry;
use hands::hand::Hand;
use holdings::{director_of, lowest_kind_of, owns_train};
use judging::rounds::on_operating_turn;
use ledger::books::Books;
use rulebook::book::RuleBook;

const LARGEST_BILL: u16 = 1_000;

pub fn judge_bill(books: &Books, card: u16, company: u8, amount: u16) -> Result<(), TableRefusal>
    ensures { result ≡ bill_answer books.now card company amount }
{
    on_operating_turn(books, card, company)?;
    if books.operating.paid {
        return Err(TableRefusal::AlreadyPaidOut);
    }
    if !(1..=LARGEST_BILL).contains(&amount) {
        return Err(TableRefusal::AmountOutOfRange);
    }
    can_carry(&books.cash, books.treasury(company), 0, u32::from(amount))?;
    Ok(())
}

fn marks_of_director(books: &Books, company: u8) -> i32
    ensures { result ≡ director_marks books.now (director books.now company) }
{
    director_of(books, company).map_or(0, |seat| books.marks(usize::from(seat)))
}

// Could the company and its director together pay for the lowest train?
fn reaches_train<B: RuleBook>(book: &B, books: &Books, company: u8) -> bool
    ensures { result ≡ can_reach (B.meaning book.now) books.now company (lowest_kind books.now) }
{
    lowest_kind_of(books).is_some_and(|kind| reaches_kind(book, books, company, kind))
}

fn reaches_kind<B: RuleBook>(book: &B, books: &Books, company: u8, kind: u8) -> bool
    ensures { result ≡ can_reach (B.meaning book.now) books.now company (Some kind) }
{
    let treasury = books.treasury(company);
    i64::from(book.train_price(kind))
        <= i64::from(books.marks(treasury)) + i64::from(marks_of_director(books, company))
}

pub fn judge_done<B: RuleBook>(
    book: &B,
    books: &Books,
    card: u16,
    company: u8,
) -> Result<(), TableRefusal>
    ensures { result ≡ done_answer (B.meaning book.now) books.now card company }
{
    on_operating_turn(books, card, company)?;
    if !books.operating.paid {
        return Err(TableRefusal::NotPaidOut);
    }
    if !owns_train(books, company) && reaches_train(book, books, company) {
        return Err(TableRefusal::TrainOwed);
    }
    Ok(())
}
