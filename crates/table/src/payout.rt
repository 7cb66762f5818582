// A payout: what it moves, and what it notes of the company and of the round.
ghost use Rattle.std.specs.Prelude.{◌≡◌};
ghost use Rattle.ledger.specs.Operating.{payout_after, noted_payout};

use ledger::books::Books;
use ledger::company::Company;
use ledger::reading::slot;
use moving::payout::move_payout;
use rulebook::book::RuleBook;

// Nothing is noted outside the row. Its length is asked, as what a row becomes through get_mut is not proved.
fn note_payout(books: &mut Books, company: u8, space: u16)
    ensures { books.new ≡ noted_payout books.old company space }
{
    books.operating.paid = true;
    let at = slot(company);
    let companies: &mut [Company] = &mut books.companies;
    if at < companies.len() {
        companies[at].space = space;
    }
}

pub(crate) fn make_payout<B: RuleBook>(
    book: &B,
    books: &mut Books,
    company: u8,
    mode: u8,
    revenue: u16,
)
    ensures { books.new ≡ payout_after (B.meaning book.now) books.old company mode revenue }
{
    let space = book.after_payout(books.space(company), mode, revenue);
    move_payout(books, company, book.split(mode, revenue));
    note_payout(books, company, space);
}
