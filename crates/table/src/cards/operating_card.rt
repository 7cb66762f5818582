ghost use Rattle.std.specs.Prelude.{◌≡◌, ◌%◌};

// Even rounds are operating rounds.
#[derive(Drop)]
pub struct OperatingCard {
    pub(crate) number: u16,
    ghost even: { number % 2 ≡ 0 },
}

impl OperatingCard {
    pub fn number(&self) -> u16
        ensures { result ≡ self.now.number }
    {
        self.number
    }
}
