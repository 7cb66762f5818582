ghost use Rattle.std.specs.Prelude.{◌≡◌, None};

use crate::card::Card;
use catalogue::books::PrintedBook;
use entries::record::Record;
use faults::file::FileFault;
use table::table::Table;

// A table under a printed book, with its card.
#[derive(Drop)]
pub struct Game {
    pub table: Table<PrintedBook>,
    pub card: Card,
}

// A game as the first record of a file opens it, that record, and the place after it.
#[derive(Drop)]
pub struct Opened {
    pub game: Game,
    pub record: Record,
    pub next: usize,
}

// Where a file was refused, and the game that the records before it made; none if it was refused at or before its open.
#[derive(Drop)]
pub struct Stopped {
    pub fault: FileFault,
    pub game: Option<Game>,
}

// A fault that comes before there is a game.
impl From<FileFault> for Stopped {
    ghost from_gives = { λ e r. r ≡ record { fault = e; game = None } };

    fn from(fault: FileFault) -> Stopped {
        Stopped { fault, game: None }
    }
}
