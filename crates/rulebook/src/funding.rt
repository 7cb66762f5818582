ghost use Rattle.std.specs.Prelude.{◌≡◌};
ghost use Rattle.rulebook.specs.Funding.{funded_tenths};

// What a company is paid when it floats: for all ten tenths, or for those that have been sold.
#[derive(Clone, Copy, PartialEq, Eq, Debug)]
pub enum Funding {
    Full,
    Sold,
}

impl Funding {
    // For how many tenths the bank pays par, where so many have left the offering.
    pub fn tenths(self, gone: u8) -> u8
        ensures { result ≡ funded_tenths self gone }
    {
        match self {
            Funding::Full => 10,
            Funding::Sold => gone,
        }
    }
}
