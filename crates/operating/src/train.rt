// May a company buy a train, and who pays?
ghost use Rattle.std.specs.Prelude.{◌≡◌};
ghost use Rattle.ledger.specs.Holdings.{director, lowest_kind, marks_at, treasury};
ghost use Rattle.ledger.specs.Crossings.{crossing_outcome};
ghost use Rattle.ledger.specs.Answers.{by_carry};
ghost use Rattle.ledger.specs.Operating.{missing, needs_help, same_kind, first_payment, train_answer};

use faults::table::TableRefusal;
use hands::carrying::can_carry;
use hands::hand::Hand;
use holdings::{director_of, lowest_kind_of, owns_train};
use judging::rounds::on_operating_turn;
use ledger::books::Books;
use rulebook::book::RuleBook;

fn treasury_marks(books: &Books, company: u8) -> i32
    ensures { result ≡ marks_at books.now (treasury books.now company) }
{
    books.marks(books.treasury(company))
}

// What the company lacks of a price: never below nought, so it fits a u32.
pub fn missing_marks(books: &Books, company: u8, price: u16) -> u32
    ensures { result ≡ missing books.now company price }
{
    (i32::from(price) - treasury_marks(books, company)).max(0) as u32
}

pub fn is_helped(books: &Books, company: u8, price: u16) -> bool
    ensures { result ≡ needs_help books.now company price }
{
    !owns_train(books, company) && treasury_marks(books, company) < i32::from(price)
}

fn is_lowest(books: &Books, kind: u8) -> bool
    ensures { result ≡ same_kind (lowest_kind books.now) kind }
{
    lowest_kind_of(books) == Some(kind)
}

// The first carry of cash is the director's, if he has to help, else the company's.
fn can_afford(books: &Books, company: u8, price: u16) -> Result<(), TableRefusal>
    ensures { result ≡ by_carry (crossing_outcome books.now (first_payment books.now company price (director books.now company))).0 }
{
    let treasury = books.treasury(company);
    match director_of(books, company) {
        Some(seat) if is_helped(books, company, price) => {
            can_carry(
                &books.cash,
                usize::from(seat),
                treasury,
                missing_marks(books, company, price),
            )?;
        }
        _ => can_carry(&books.cash, treasury, 0, u32::from(price))?,
    }
    Ok(())
}

pub fn judge_train<B: RuleBook>(
    book: &B,
    books: &Books,
    card: u16,
    company: u8,
    kind: u8,
) -> Result<(), TableRefusal>
    ensures { result ≡ train_answer (B.meaning book.now) books.now card company kind }
{
    on_operating_turn(books, card, company)?;
    if !books.operating.paid {
        return Err(TableRefusal::NotPaidOut);
    }
    if !is_lowest(books, kind) {
        return Err(TableRefusal::NotLowestKind);
    }
    can_afford(books, company, book.train_price(kind))
}
