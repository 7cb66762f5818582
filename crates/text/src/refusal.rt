ghost use Rattle.std.specs.Prelude.{◌≡◌};
ghost use Rattle.text.specs.Text.{text_number};

// Why a text was not handed over.
#[derive(Clone, Copy, PartialEq, Eq, Debug)]
pub enum TextRefusal {
    BufferTooShort,
}

impl TextRefusal {
    pub fn number(self) -> u8
        ensures { result ≡ text_number self }
    {
        match self {
            TextRefusal::BufferTooShort => 56,
        }
    }
}
