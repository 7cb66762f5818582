ghost use Rattle.std.specs.Prelude.{◌≡◌};
ghost use Rattle.hands.specs.Carry.{carried};
ghost use Rattle.hands.specs.Totals.{TotalsKept, ElsewhereSame};

use crate::carrying::carry;
use crate::fault::CarryFault;
use crate::tallied::Tallied;

// A carry between hands with tallies: over the whole row nothing is made or lost, and no third hand changes.
pub fn carry_tallied<H: Tallied>(
    row: &mut [H],
    giver: usize,
    receiver: usize,
    load: H::Load,
) -> Result<(), CarryFault>
    ensures outcome { (result, row.new) ≡ carried H.Hand.kind row.old giver receiver load }
    ensures totals { TotalsKept H.tallies row.old row.new }
    ensures elsewhere { ElsewhereSame giver receiver row.old row.new }
{
    carry(row, giver, receiver, load)
}
