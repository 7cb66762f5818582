ghost use Rattle.std.specs.Prelude.{◌≡◌};
ghost use Rattle.dealing.specs.Refusal.{opening_number};

use catalogue::books::UnknownBook;

// Why no opening cash was dealt.
#[derive(Clone, Copy, PartialEq, Eq, Debug)]
pub enum OpeningRefusal {
    NoOpeningCash,
    UnknownBook,
}

impl OpeningRefusal {
    pub fn number(self) -> u8
        ensures { result ≡ opening_number self }
    {
        match self {
            OpeningRefusal::NoOpeningCash => 10,
            OpeningRefusal::UnknownBook => 55,
        }
    }
}

impl From<UnknownBook> for OpeningRefusal {
    ghost use Rattle.dealing.specs.declared.refusal.OpeningRefusal.{OpeningRefusal};

    ghost from_gives = { λ _ refusal. refusal ≡ OpeningRefusal.UnknownBook };

    fn from(_: UnknownBook) -> Self {
        Self::UnknownBook
    }
}
