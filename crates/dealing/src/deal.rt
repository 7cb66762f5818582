ghost use Rattle.std.specs.Prelude.{◌≡◌, ℕ, ◌*◌, ◌≤◌, map, length};
ghost use Rattle.dealing.specs.Opening.{hand_view, undealt_row, dealt_row, dealing, opened, viewed};

use crate::opening::Opening;
use crate::refusal::OpeningRefusal;
use catalogue::books::PrintedBook;
use hands::carrying::carry;
use hands::hand::Hand;
use kinds::cash::Cash;
use kinds::cash_floor::CashFloor;
use rulebook::book::RuleBook;

fn undealt(bank: u16) -> [Cash; 7]
    ensures { map hand_view result ≡ undealt_row bank }
{
    let bank = Cash::holding(CashFloor::Overdraft, bank);
    let seat = Cash::holding(CashFloor::Zero, 0);
    [bank, seat, seat, seat, seat, seat, seat]
}

// The bank has enough for all, so no carry is refused.
fn dealt_cash(bank: u16, players: u8, marks: u16) -> [Cash; 7]
    requires seated { players ≤ 6 }
    requires enough { players * marks ≤ bank }
    ensures { map hand_view result ≡ dealt_row bank players marks }
{
    let mut row = undealt(bank);
    for seat in 1..=players {
        carry(&mut row, 0, usize::from(seat), u32::from(marks)).unwrap();
    }
    row
}

// Deals a book's opening cash from the bank to each seat.
pub fn deal<B: RuleBook>(book: &B, players: u8) -> Result<Opening, OpeningRefusal>
    ensures { viewed result ≡ dealing (B.meaning book.now) players }
{
    let marks = book
        .opening_cash(players)
        .ok_or(OpeningRefusal::NoOpeningCash)?;
    let cash = dealt_cash(book.bank_total(), players, marks);
    Ok(Opening { players, cash })
}

// Deals the opening cash of a printed book by its number.
pub fn open_printed(book: u32, players: u32) -> Result<Opening, OpeningRefusal>
    ensures { viewed result ≡ opened book players }
{
    // No book has so large a number, or opening cash for so many.
    let book = PrintedBook::try_from(u8::try_from(book).unwrap_or(u8::MAX))?;
    deal(&book, u8::try_from(players).unwrap_or(u8::MAX))
}
