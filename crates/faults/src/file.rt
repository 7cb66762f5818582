// Why a game file, a record or a buffer was refused, and where.
ghost use Rattle.std.specs.Prelude.{◌≡◌, Some};
ghost use Rattle.faults.specs.Numbers.{file_number};
ghost use Rattle.faults.specs.Layers.{at_place, NothingLost};
ghost use Rattle.faults.specs.Words.{file_words, fault_words};

use crate::table::TableFault;
use std::error::Error;
use std::fmt;

#[derive(Clone, Copy, PartialEq, Eq, Debug)]
pub enum FileRefusal {
    UnknownKind,
    CutBody,
    OpenMisplaced,
    OtherRound,
    FileTooLong,
    UnknownBook,
    BufferTooShort,
    Table(TableFault),
}

impl FileRefusal {
    pub fn number(self) -> u8
        ensures { result ≡ file_number self }
    {
        match self {
            FileRefusal::UnknownKind => 50,
            FileRefusal::CutBody => 51,
            FileRefusal::OpenMisplaced => 52,
            FileRefusal::OtherRound => 53,
            FileRefusal::FileTooLong => 54,
            FileRefusal::UnknownBook => 55,
            FileRefusal::BufferTooShort => 56,
            FileRefusal::Table(fault) => fault.refusal.number(),
        }
    }
}

impl fmt::Display for FileRefusal {
    ghost output = { λ refusal. Some (file_words refusal) };

    fn fmt<W: fmt::Write>(&self, f: &mut fmt::Formatter<W>) -> fmt::Result {
        f.write_str(match self {
            FileRefusal::UnknownKind => "unknown kind",
            FileRefusal::CutBody => "cut body",
            FileRefusal::OpenMisplaced => "open misplaced",
            FileRefusal::OtherRound => "a call of the other round",
            FileRefusal::FileTooLong => "file too long",
            FileRefusal::UnknownBook => "unknown book",
            FileRefusal::BufferTooShort => "buffer too short",
            FileRefusal::Table(fault) => return write!(f, "{fault}"),
        })
    }
}

// The place is that of the faulty record's first byte.
#[derive(Clone, Copy, PartialEq, Eq, Debug)]
pub struct FileFault {
    pub refusal: FileRefusal,
    pub place: usize,
}

// The refusal by its number, and the place.
impl fmt::Display for FileFault {
    ghost output = { λ fault. Some (fault_words fault) };

    fn fmt<W: fmt::Write>(&self, f: &mut fmt::Formatter<W>) -> fmt::Result {
        let number = self.refusal.number();
        let place = self.place;
        write!(f, "refused {number} at {place}")
    }
}

impl Error for FileFault {}

// Names the place, which a table's fault does not know.
pub fn at_place<T>(place: usize, answer: Result<T, TableFault>) -> Result<T, FileFault>
    ensures value { result ≡ at_place place answer }
    ensures whole { NothingLost T }
{
    answer.map_err(|fault| FileFault {
        refusal: FileRefusal::Table(fault),
        place,
    })
}
