ghost use Rattle.std.specs.Prelude.{◌≡◌};
ghost use Rattle.std.specs.Result.{result_ok};
ghost use Rattle.catalogue.specs.Printed.{printed_meaning, numbered};
ghost use Rattle.catalogue.specs.Ranges.{printed_lawful};

use printed::berg::Berg;
use printed::north::North;
use rulebook::book::RuleBook;
use rulebook::funding::Funding;
use rulebook::split::Split;

// A printed book, known by its number in a game file.
#[derive(Clone, Copy, PartialEq, Eq, Debug)]
pub enum PrintedBook {
    North,
    Berg,
}

// No printed book has the number.
#[derive(Clone, Copy, PartialEq, Eq, Debug)]
pub struct UnknownBook;

// Book 1 is North, book 2 is Berg.
impl TryFrom<u8> for PrintedBook {
    type Error = UnknownBook;

    ghost try_from_gives = { λ number result. result_ok result ≡ numbered number };

    fn try_from(number: u8) -> Result<Self, UnknownBook> {
        match number {
            1 => Ok(PrintedBook::North),
            2 => Ok(PrintedBook::Berg),
            _ => Err(UnknownBook),
        }
    }
}

// Each question is passed on by a match of its own: a `dyn` book would have to be handed out by a function, and a closure
// for each question is no shorter.
impl RuleBook for PrintedBook {
    ghost meaning = { printed_meaning };

    ghost lawful = { λ b. printed_lawful b };

    fn bank_total(&self) -> u16 {
        match self {
            PrintedBook::North => North.bank_total(),
            PrintedBook::Berg => Berg.bank_total(),
        }
    }

    fn opening_cash(&self, players: u8) -> Option<u16> {
        match self {
            PrintedBook::North => North.opening_cash(players),
            PrintedBook::Berg => Berg.opening_cash(players),
        }
    }

    fn companies(&self) -> u8 {
        match self {
            PrintedBook::North => North.companies(),
            PrintedBook::Berg => Berg.companies(),
        }
    }

    fn float(&self, company: u8) -> u8 {
        match self {
            PrintedBook::North => North.float(company),
            PrintedBook::Berg => Berg.float(company),
        }
    }

    fn funding(&self) -> Funding {
        match self {
            PrintedBook::North => North.funding(),
            PrintedBook::Berg => Berg.funding(),
        }
    }

    fn certificate_limit(&self, players: u8) -> u8 {
        match self {
            PrintedBook::North => North.certificate_limit(players),
            PrintedBook::Berg => Berg.certificate_limit(players),
        }
    }

    fn share_limit(&self) -> u8 {
        match self {
            PrintedBook::North => North.share_limit(),
            PrintedBook::Berg => Berg.share_limit(),
        }
    }

    fn pool_limit(&self) -> u8 {
        match self {
            PrintedBook::North => North.pool_limit(),
            PrintedBook::Berg => Berg.pool_limit(),
        }
    }

    fn spaces(&self) -> u16 {
        match self {
            PrintedBook::North => North.spaces(),
            PrintedBook::Berg => Berg.spaces(),
        }
    }

    fn price(&self, space: u16) -> u16 {
        match self {
            PrintedBook::North => North.price(space),
            PrintedBook::Berg => Berg.price(space),
        }
    }

    fn is_par(&self, space: u16) -> bool {
        match self {
            PrintedBook::North => North.is_par(space),
            PrintedBook::Berg => Berg.is_par(space),
        }
    }

    fn after_sale(&self, space: u16, tenths: u8) -> u16 {
        match self {
            PrintedBook::North => North.after_sale(space, tenths),
            PrintedBook::Berg => Berg.after_sale(space, tenths),
        }
    }

    fn after_payout(&self, space: u16, mode: u8, revenue: u16) -> u16 {
        match self {
            PrintedBook::North => North.after_payout(space, mode, revenue),
            PrintedBook::Berg => Berg.after_payout(space, mode, revenue),
        }
    }

    fn split(&self, mode: u8, revenue: u16) -> Option<Split> {
        match self {
            PrintedBook::North => North.split(mode, revenue),
            PrintedBook::Berg => Berg.split(mode, revenue),
        }
    }

    fn train_kinds(&self) -> u8 {
        match self {
            PrintedBook::North => North.train_kinds(),
            PrintedBook::Berg => Berg.train_kinds(),
        }
    }

    fn train_price(&self, kind: u8) -> u16 {
        match self {
            PrintedBook::North => North.train_price(kind),
            PrintedBook::Berg => Berg.train_price(kind),
        }
    }

    fn train_count(&self, kind: u8) -> u8 {
        match self {
            PrintedBook::North => North.train_count(kind),
            PrintedBook::Berg => Berg.train_count(kind),
        }
    }
}
