// The books of a table when it is opened.
#![tactic(auto)]

ghost use Rattle.std.specs.Prelude.{◌≡◌, ◌-◌, ◌*◌, ◌≤◌, ◌∷◌, ◌++◌, replicate};
ghost use Rattle.ledger.specs.Holdings.{no_trains};
ghost use Rattle.ledger.specs.Opening.{opening_cash, stack_of, untouched, opening_companies, opened, open_answer};

use faults::table::TableRefusal;
use kinds::cash::Cash;
use kinds::cash_floor::CashFloor;
use kinds::papers::Papers;
use kinds::trains::Trains;
use ledger::books::{Books, Operating, Stock};
use ledger::company::Company;
use rulebook::book::RuleBook;
use std::array;

fn deal_cash(total: u16, players: u8, cash: u16) -> [Cash; 15]
    requires { (players ≤ 6) × (players * cash ≤ total) }
    ensures { result ≡ opening_cash total players cash }
{
    let empty = Cash::holding(CashFloor::Zero, 0);
    let hand = Cash::holding(CashFloor::Zero, cash);
    let bank = Cash::holding(CashFloor::Overdraft, total - u16::from(players) * cash);
    cash_row(players, bank, hand, empty)
}

// The bank, the seats, and the places beyond them.
fn cash_row(players: u8, bank: Cash, hand: Cash, empty: Cash) -> [Cash; 15]
    requires { players ≤ 6 }
    ensures { result ≡ bank ∷ (replicate players hand ++ replicate (14 - players) empty) }
{
    let mut row = [empty; 15];
    row[0] = bank;
    row[1..=usize::from(players)].fill(hand);
    row
}

fn stack_trains<B: RuleBook>(book: &B) -> [Trains; 9]
    ensures { result ≡ stack_of (B.meaning book.now).train_count ∷ replicate 8 no_trains }
{
    let mut row = [Trains::none(); 9];
    row[0] = stack(book);
    row
}

// The kinds are the indices 0 to 7.
fn stack<B: RuleBook>(book: &B) -> Trains
    ensures { result ≡ stack_of (B.meaning book.now).train_count }
{
    Trains::new(array::from_fn(|kind| book.train_count(kind as u8)))
}

// A company that nothing has happened to, with so much in its offering.
fn untouched_company(offering: Papers) -> Company
    ensures { result ≡ untouched offering }
{
    let mut papers = [Papers::none(); 8];
    papers[0] = offering;
    Company {
        papers,
        space: 0,
        par: 0,
        floated: false,
        sold: [0; 6],
        served: 0,
    }
}

fn list_companies(companies: u8) -> [Company; 8]
    requires { companies ≤ 8 }
    ensures { result ≡ opening_companies companies }
{
    let mut rows = [untouched_company(Papers::none()); 8];
    rows[..usize::from(companies)].fill(untouched_company(Papers::all()));
    rows
}

fn opening_books<B: RuleBook>(book: &B, players: u8, cash: u16) -> Books
    requires { (players ≤ 6) × (players * cash ≤ (B.meaning book.now).bank) }
    ensures { result ≡ opened (B.meaning book.now) players cash }
{
    Books {
        players,
        cash: deal_cash(book.bank_total(), players, cash),
        trains: stack_trains(book),
        companies: list_companies(book.companies()),
        round: 1,
        stock: Stock {
            first: 1,
            turn: 1,
            passes: 0,
            bought: false,
            acted: false,
            last: None,
        },
        operating: Operating {
            company: None,
            paid: false,
        },
    }
}

// Refused where the book has no opening cash for so many players.
pub fn open_books<B: RuleBook>(book: &B, players: u8) -> Result<Books, TableRefusal>
    ensures { result ≡ open_answer (B.meaning book.now) players }
{
    let cash = book
        .opening_cash(players)
        .ok_or(TableRefusal::NoOpeningCash)?;
    Ok(opening_books(book, players, cash))
}
