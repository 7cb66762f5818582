ghost use Rattle.std.specs.Prelude.{refl};
ghost use Rattle.kinds.specs.Cash.{cash, cash_tallies, can_give, can_take};
ghost use Rattle.kinds.specs.Made.{failed};
ghost use Rattle.kinds.specs.Marks.{cash_laws};
ghost use Rattle.hands.proofs.Orders.{either_order_lem, back_again_lem};

use super::Cash;
use hands::hand::Hand;
use hands::tallied::Tallied;

impl Hand for Cash {
    type Load = u32;

    ghost kind = { cash };

    ghost not_given = { λ c n e. failed (can_give c n) _ c e };

    ghost not_taken = { λ c n e. failed (can_take c n) _ c e };

    fn can_give(&self, load: u32) -> bool {
        i64::from(self.marks) - i64::from(load) >= i64::from(self.floor.marks())
    }

    fn can_take(&self, load: u32) -> bool {
        i64::from(self.marks) + i64::from(load) <= i64::from(Self::CEILING)
    }

    // A load that can be given or taken fits an i32.
    fn give(&mut self, load: u32) {
        if self.can_give(load) {
            self.marks -= load as i32;
        }
    }

    fn take(&mut self, load: u32) {
        if self.can_take(load) {
            self.marks += load as i32;
        }
    }
}

impl Tallied for Cash {
    const CEILING: u32 = 1_000_000;

    ghost CEILING = { 1000000 };

    ghost tallies = { cash_tallies };

    ghost ceiling_is = { refl };

    ghost lawful = { cash_laws };

    ghost either_order = { either_order_lem cash cash_tallies cash_laws };

    ghost back_again = { back_again_lem cash cash_tallies cash_laws };

    fn tally(&self, tag: u8) -> i32 {
        if tag == 0 { self.marks } else { 0 }
    }
}
