// May a company pay out, and what does everybody get?
ghost use Rattle.std.specs.Prelude.{◌≡◌, ◌*◌, ◌≤◌};
ghost use Rattle.ledger.specs.Holdings.{tenths_at};
ghost use Rattle.ledger.specs.Operating.{payout_sum, company_share, dividend_sum, payout_granted, payout_answer};
ghost use Rattle.rulebook.specs.Lawful.{payable};

use faults::table::TableRefusal;
use holdings::owns_train;
use judging::rounds::{bank_cannot_give, on_operating_turn};
use ledger::books::Books;
use ledger::reading::seat_papers;
use rulebook::book::RuleBook;
use rulebook::split::Split;

const LARGEST_REVENUE: u16 = 9_990;

fn is_payable(revenue: u16) -> bool
    ensures { result ≡ payable revenue }
{
    revenue <= LARGEST_REVENUE && revenue % 10 == 0
}

// The dividend of a hand, by its tenths before the payout; cash moves no tenths.
pub fn dividend_of(books: &Books, company: u8, place: usize, dividend: u16) -> u32
    ensures value { result ≡ dividend * tenths_at books.now company place }
    ensures small { result ≤ 655350 }
{
    u32::from(dividend).saturating_mul(books.tenths(company, place))
}

// What the seats get together.
fn dividends_due(books: &Books, company: u8, dividend: u16) -> u32
    ensures value { result ≡ dividend_sum books.now company dividend 1 books.now.players }
    ensures small { result ≤ 655350 * 255 }
{
    (1..=books.players)
        .map(|seat| dividend_of(books, company, seat_papers(seat), dividend))
        .sum()
}

// What the company keeps, and the dividend on the tenths in its pool.
pub fn share_of_company(books: &Books, company: u8, split: Split) -> u32
    ensures value { result ≡ company_share books.now company split }
    ensures small { result ≤ 720885 }
{
    u32::from(split.kept) + dividend_of(books, company, 1, split.dividend)
}

fn sum_paid(books: &Books, company: u8, split: Split) -> u32
    ensures { result ≡ payout_sum books.now company split }
{
    dividends_due(books, company, split.dividend) + share_of_company(books, company, split)
}

fn allow_payout(
    books: &Books,
    company: u8,
    revenue: u16,
    split: Option<Split>,
) -> Result<(), TableRefusal>
    ensures { result ≡ payout_granted books.now company revenue split }
{
    let split = split.ok_or(TableRefusal::NoSuchMode)?;
    if revenue > 0 && !owns_train(books, company) {
        return Err(TableRefusal::NoTrain);
    }
    if bank_cannot_give(books, sum_paid(books, company, split)) {
        return Err(TableRefusal::BankFloor);
    }
    Ok(())
}

pub fn judge_payout<B: RuleBook>(
    book: &B,
    books: &Books,
    card: u16,
    company: u8,
    mode: u8,
    revenue: u16,
) -> Result<(), TableRefusal>
    ensures { result ≡ payout_answer (B.meaning book.now) books.now card company mode revenue }
{
    on_operating_turn(books, card, company)?;
    if books.operating.paid {
        return Err(TableRefusal::AlreadyPaidOut);
    }
    if !is_payable(revenue) {
        return Err(TableRefusal::RevenueOutOfRange);
    }
    allow_payout(books, company, revenue, book.split(mode, revenue))
}
