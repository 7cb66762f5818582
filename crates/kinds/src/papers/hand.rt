ghost use Rattle.std.specs.Prelude.{refl};
ghost use Rattle.kinds.specs.Papers.{papers, papers_tallies, can_give, can_take};
ghost use Rattle.kinds.specs.Made.{failed};
ghost use Rattle.kinds.specs.Certificates.{papers_laws};
ghost use Rattle.hands.proofs.Orders.{either_order_lem, back_again_lem};

use super::Papers;
use crate::certificate_set::CertificateSet;
use hands::hand::Hand;
use hands::tallied::Tallied;

impl Hand for Papers {
    type Load = CertificateSet;

    ghost kind = { papers };

    ghost not_given = { λ h l e. failed (can_give h l) _ h e };

    ghost not_taken = { λ h l e. failed (can_take h l) _ h e };

    fn can_give(&self, load: CertificateSet) -> bool {
        load.is_of_company() && self.certificates & load.bits == load.bits
    }

    fn can_take(&self, load: CertificateSet) -> bool {
        load.is_of_company() && self.certificates & load.bits == 0
    }

    fn give(&mut self, load: CertificateSet) {
        if self.can_give(load) {
            self.certificates ^= load.bits;
        }
    }

    fn take(&mut self, load: CertificateSet) {
        if self.can_take(load) {
            self.certificates |= load.bits;
        }
    }
}

impl Tallied for Papers {
    const CEILING: u32 = 1;

    ghost CEILING = { 1 };

    ghost tallies = { papers_tallies };

    ghost ceiling_is = { refl };

    ghost lawful = { papers_laws };

    ghost either_order = { either_order_lem papers papers_tallies papers_laws };

    ghost back_again = { back_again_lem papers papers_tallies papers_laws };

    fn tally(&self, tag: u8) -> i32 {
        i32::from(self.certificates().contains(tag))
    }
}
