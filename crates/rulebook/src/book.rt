ghost use Rattle.std.specs.Prelude.{◌≡◌};
ghost use Rattle.rulebook.specs.Book.{Book};
ghost use Rattle.rulebook.specs.Lawful.{Lawful};

use crate::funding::Funding;
use crate::split::Split;

// A rule book is asked and never changed by asking, and no question is refused. Seats and companies count from 1,
// spaces and train kinds from 0. Of what a book lacks it answers 0 or none.
pub trait RuleBook {
    // All its answers, as one value.
    ghost meaning: { Self → Book };

    fn bank_total(&self) -> u16
        ensures { result ≡ (meaning self.now).bank };

    fn opening_cash(&self, players: u8) -> Option<u16>
        ensures { result ≡ (meaning self.now).opening players };

    fn companies(&self) -> u8
        ensures { result ≡ (meaning self.now).companies };

    // Tenths that must have left the offering for a company to float.
    fn float(&self, company: u8) -> u8
        ensures { result ≡ (meaning self.now).float company };

    fn funding(&self) -> Funding
        ensures { result ≡ (meaning self.now).funding };

    fn certificate_limit(&self, players: u8) -> u8
        ensures { result ≡ (meaning self.now).certificate_limit players };

    fn share_limit(&self) -> u8
        ensures { result ≡ (meaning self.now).share_limit };

    fn pool_limit(&self) -> u8
        ensures { result ≡ (meaning self.now).pool_limit };

    fn spaces(&self) -> u16
        ensures { result ≡ (meaning self.now).spaces };

    fn price(&self, space: u16) -> u16
        ensures { result ≡ (meaning self.now).price space };

    fn is_par(&self, space: u16) -> bool
        ensures { result ≡ (meaning self.now).par space };

    // Where a token stands after a sale of so many tenths.
    fn after_sale(&self, space: u16, tenths: u8) -> u16
        ensures { result ≡ (meaning self.now).after_sale space tenths };

    // Where a token stands after a payout.
    fn after_payout(&self, space: u16, mode: u8, revenue: u16) -> u16
        ensures { result ≡ (meaning self.now).after_payout space mode revenue };

    fn split(&self, mode: u8, revenue: u16) -> Option<Split>
        ensures { result ≡ (meaning self.now).split mode revenue };

    fn train_kinds(&self) -> u8
        ensures { result ≡ (meaning self.now).train_kinds };

    fn train_price(&self, kind: u8) -> u16
        ensures { result ≡ (meaning self.now).train_price kind };

    fn train_count(&self, kind: u8) -> u8
        ensures { result ≡ (meaning self.now).train_count kind };

    ghost lawful: { (b : Self) → Lawful (meaning b) };
}
