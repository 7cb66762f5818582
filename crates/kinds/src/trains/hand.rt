ghost use Rattle.std.specs.Prelude.{refl};
ghost use Rattle.kinds.specs.Trains.{trains, trains_tallies, can_give, can_take};
ghost use Rattle.kinds.specs.Made.{failed};
ghost use Rattle.kinds.specs.Rolling.{trains_laws};
ghost use Rattle.hands.proofs.Orders.{either_order_lem, back_again_lem};

use super::Trains;
use crate::train_load::TrainLoad;
use hands::hand::Hand;
use hands::tallied::Tallied;

impl Hand for Trains {
    type Load = TrainLoad;

    ghost kind = { trains };

    ghost not_given = { λ h l e. failed (can_give h l) _ h e };

    ghost not_taken = { λ h l e. failed (can_take h l) _ h e };

    fn can_give(&self, load: TrainLoad) -> bool {
        self.counts
            .get(usize::from(load.kind))
            .is_some_and(|&held| held >= load.count)
    }

    fn can_take(&self, load: TrainLoad) -> bool {
        self.counts
            .get(usize::from(load.kind))
            .is_some_and(|&held| held <= u8::MAX - load.count)
    }

    fn give(&mut self, load: TrainLoad) {
        if self.can_give(load) {
            self.counts[usize::from(load.kind)] -= load.count;
        }
    }

    fn take(&mut self, load: TrainLoad) {
        if self.can_take(load) {
            self.counts[usize::from(load.kind)] += load.count;
        }
    }
}

impl Tallied for Trains {
    const CEILING: u32 = 255;

    ghost CEILING = { 255 };

    ghost tallies = { trains_tallies };

    ghost ceiling_is = { refl };

    ghost lawful = { trains_laws };

    ghost either_order = { either_order_lem trains trains_tallies trains_laws };

    ghost back_again = { back_again_lem trains trains_tallies trains_laws };

    fn tally(&self, tag: u8) -> i32 {
        i32::from(self.count(tag))
    }
}
