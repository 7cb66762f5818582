// The records of a file one after the other, each with its place.
ghost use Rattle.std.specs.Prelude.{◌≡◌, length};
ghost use Rattle.entries.specs.Whole.{reading_by};
ghost use Rattle.gamefile.specs.Left.{left, items_left, Gives};

use crate::reading::read;
use entries::record::Record;
use faults::file::FileFault;

// No game file is longer.
pub const LONGEST: usize = 65_536;

// After a fault nothing more comes.
#[derive(Clone, Debug, Drop)]
pub struct Records<'a> {
    pub file: &'a [u8],
    pub place: usize,
}

// The records of a file from a place on.
#[tactic(auto, unfolding(crate::specs::Left::left))]
pub fn records_from(file: &[u8], place: usize) -> Records<'_>
    ensures { left result ≡ reading_by (length file.now) file.now place }
{
    Records { file, place }
}

impl Iterator for Records<'_> {
    type Item = Result<(usize, Record), FileFault>;

    ghost next_gives = { Gives };

    ghost remaining = { items_left };

    fn next(&mut self) -> Option<Result<(usize, Record), FileFault>> {
        let place = self.place;
        if place >= self.file.len() {
            return None;
        }
        match read(self.file, place) {
            Ok((record, next)) => {
                self.place = next;
                Some(Ok((place, record)))
            }
            Err(fault) => {
                self.place = self.file.len();
                Some(Err(fault))
            }
        }
    }
}
