ghost use Rattle.std.specs.Prelude.{◌≡◌};
ghost use Rattle.replay.specs.Games.{seen_opening};
ghost use Rattle.replay.specs.Opening.{opening};

use crate::card::Card;
use crate::game::{Game, Opened};
use catalogue::books::PrintedBook;
use entries::record::Record;
use faults::file::{FileFault, FileRefusal, at_place};
use gamefile::reading::read;
use gamefile::records::LONGEST;
use table::table::Table;

// A fault of the first record, or of the whole file.
fn at_start(refusal: FileRefusal) -> FileFault
    ensures { result ≡ record { refusal = refusal; place = 0 } }
{
    FileFault { refusal, place: 0 }
}

impl Game {
    // The game that a file's first record opens.
    pub fn open(file: &[u8]) -> Result<Opened, FileFault>
        ensures { seen_opening result ≡ opening file.now }
    {
        if file.len() > LONGEST {
            return Err(at_start(FileRefusal::FileTooLong));
        }
        if file.is_empty() {
            return Err(at_start(FileRefusal::OpenMisplaced));
        }
        let (record, next) = read(file, 0)?;
        let Record::Open { book, players } = record else {
            return Err(at_start(FileRefusal::OpenMisplaced));
        };
        let book = PrintedBook::try_from(book).map_err(|_| at_start(FileRefusal::UnknownBook))?;
        let (table, card) = at_place(0, Table::open(book, players))?;
        let card = Card::Stock(card);
        let game = Game { table, card };
        Ok(Opened { game, record, next })
    }
}
