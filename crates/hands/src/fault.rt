// Why a carry was refused, and between which places.
ghost use Rattle.std.specs.Prelude.{◌≡◌, Some};
ghost use Rattle.hands.specs.Refusal.{carry_number, carry_words, carry_line};

use std::error::Error;
use std::fmt;

#[derive(Clone, Copy, PartialEq, Eq, Debug)]
pub enum CarryRefusal {
    OutsideRow,
    SameHand,
    CannotGive,
    CannotTake,
}

impl CarryRefusal {
    pub fn number(self) -> u8
        ensures { result ≡ carry_number self }
    {
        match self {
            CarryRefusal::OutsideRow => 1,
            CarryRefusal::SameHand => 2,
            CarryRefusal::CannotGive => 3,
            CarryRefusal::CannotTake => 4,
        }
    }
}

impl fmt::Display for CarryRefusal {
    ghost output = { λ refusal. Some (carry_words refusal) };

    fn fmt<W: fmt::Write>(&self, f: &mut fmt::Formatter<W>) -> fmt::Result {
        f.write_str(match self {
            CarryRefusal::OutsideRow => "a place outside the row",
            CarryRefusal::SameHand => "giver and receiver are the same hand",
            CarryRefusal::CannotGive => "the giver cannot give",
            CarryRefusal::CannotTake => "the receiver cannot take",
        })
    }
}

#[derive(Clone, Copy, PartialEq, Eq, Debug)]
pub struct CarryFault {
    pub refusal: CarryRefusal,
    pub giver: usize,
    pub receiver: usize,
}

impl fmt::Display for CarryFault {
    ghost output = { λ fault. Some (carry_line fault) };

    fn fmt<W: fmt::Write>(&self, f: &mut fmt::Formatter<W>) -> fmt::Result {
        let CarryFault {
            refusal,
            giver,
            receiver,
        } = self;
        write!(f, "carry from {giver} to {receiver}: {refusal}")
    }
}

impl Error for CarryFault {}
