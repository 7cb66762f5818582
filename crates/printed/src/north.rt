ghost use Rattle.printed.specs.Books.{north};
ghost use Rattle.std.proofs.Common.{rules};
ghost use Rattle.printed.specs.Steps.{never_right};

use crate::figures;
use rulebook::book::RuleBook;
use rulebook::funding::Funding;
use rulebook::split::Split;

// For two to six players.
const OPENING_CASH: [u16; 5] = [1_200, 800, 600, 480, 400];

// Book 1: full funding, and a sale steps left once for each tenth.
#[derive(Clone, Copy, PartialEq, Eq, Debug)]
pub struct North;

impl RuleBook for North {
    ghost meaning = { λ _. north };

    ghost lawful = { λ b. Prim.search (rules, never_right) };

    fn bank_total(&self) -> u16 {
        9_000
    }

    fn opening_cash(&self, players: u8) -> Option<u16> {
        figures::entry_for(&OPENING_CASH, 2, players)
    }

    fn companies(&self) -> u8 {
        figures::COMPANIES
    }

    fn float(&self, company: u8) -> u8 {
        figures::float_of(company)
    }

    fn funding(&self) -> Funding {
        Funding::Full
    }

    fn certificate_limit(&self, players: u8) -> u8 {
        figures::certificate_limit_of(players)
    }

    fn share_limit(&self) -> u8 {
        figures::SHARE_LIMIT
    }

    fn pool_limit(&self) -> u8 {
        figures::POOL_LIMIT
    }

    fn spaces(&self) -> u16 {
        figures::SPACES
    }

    fn price(&self, space: u16) -> u16 {
        figures::price_of(space)
    }

    fn is_par(&self, space: u16) -> bool {
        figures::par_mark_of(space)
    }

    fn after_sale(&self, space: u16, tenths: u8) -> u16 {
        figures::left_of(space, tenths)
    }

    fn after_payout(&self, space: u16, mode: u8, revenue: u16) -> u16 {
        figures::after_payout_of(space, mode, revenue)
    }

    fn split(&self, mode: u8, revenue: u16) -> Option<Split> {
        figures::split_of(mode, revenue)
    }

    fn train_kinds(&self) -> u8 {
        figures::TRAIN_KINDS
    }

    fn train_price(&self, kind: u8) -> u16 {
        figures::train_price_of(kind)
    }

    fn train_count(&self, kind: u8) -> u8 {
        figures::train_count_of(kind)
    }
}
