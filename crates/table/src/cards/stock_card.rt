ghost use Rattle.std.specs.Prelude.{◌≡◌, ◌%◌};

// Odd rounds are stock rounds.
#[derive(Drop)]
pub struct StockCard {
    pub(crate) number: u16,
    ghost odd: { number % 2 ≡ 1 },
}

impl StockCard {
    pub fn number(&self) -> u16
        ensures { result ≡ self.now.number }
    {
        self.number
    }
}
