use crate::company::Company;
use kinds::cash::Cash;
use kinds::trains::Trains;

// What a table holds beside its rule book. Seats and companies count from 1. The rows have fixed sizes: a table uses no
// heap, so that callers in C need none.
#[derive(Drop)]
pub struct Books {
    pub players: u8,
    // The bank, the seats, then the companies. What stands beyond them is empty.
    pub cash: [Cash; 15],
    // The stack, then the companies.
    pub trains: [Trains; 9],
    pub companies: [Company; 8],
    pub round: u16,
    pub stock: Stock,
    pub operating: Operating,
}

// Where a stock round stands.
#[derive(Clone, Copy)]
pub struct Stock {
    pub first: u8,
    pub turn: u8,
    pub passes: u8,
    pub bought: bool,
    pub acted: bool,
    pub last: Option<u8>,
}

// Where an operating round stands.
#[derive(Clone, Copy)]
pub struct Operating {
    pub company: Option<u8>,
    pub paid: bool,
}
