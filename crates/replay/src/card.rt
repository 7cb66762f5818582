ghost use Rattle.std.specs.Prelude.{◌≡◌};
ghost use Rattle.replay.specs.Cards.{number_of};

use faults::file::FileFault;
use table::cards::{OperatingCard, StockCard};

// The card of a round of either sort.
#[derive(Drop)]
pub enum Card {
    Stock(StockCard),
    Operating(OperatingCard),
}

impl Card {
    pub fn number(&self) -> u16
        ensures { result ≡ number_of self.now }
    {
        match self {
            Card::Stock(card) => card.number(),
            Card::Operating(card) => card.number(),
        }
    }
}

// A record or a file that was refused, and the card that is still held.
#[derive(Drop)]
pub struct Refused {
    pub fault: FileFault,
    pub card: Card,
}
