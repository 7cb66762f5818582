ghost use Rattle.std.specs.Prelude.{◌≡◌};
ghost use Rattle.hands.specs.Carry.{carried};

use crate::fault::{CarryFault, CarryRefusal};
use crate::hand::Hand;

// What a carry would answer, with nothing moved.
pub fn can_carry<H: Hand>(
    row: &[H],
    giver: usize,
    receiver: usize,
    load: H::Load,
) -> Result<(), CarryFault>
    ensures { result ≡ (carried H.kind row.now giver receiver load).0 }
{
    let refused = |refusal| Err(CarryFault {
        refusal,
        giver,
        receiver,
    });
    let (Some(from), Some(to)) = (row.get(giver), row.get(receiver)) else {
        return refused(CarryRefusal::OutsideRow);
    };
    if giver == receiver {
        return refused(CarryRefusal::SameHand);
    }
    if !from.can_give(load) {
        return refused(CarryRefusal::CannotGive);
    }
    if !to.can_take(load) {
        return refused(CarryRefusal::CannotTake);
    }
    Ok(())
}

// Moves a load from one hand of a row to another, or refuses and leaves the row as it was.
pub fn carry<H: Hand>(
    row: &mut [H],
    giver: usize,
    receiver: usize,
    load: H::Load,
) -> Result<(), CarryFault>
    ensures { (result, row.new) ≡ carried H.kind row.old giver receiver load }
{
    can_carry(row, giver, receiver, load)?;
    row[giver].give(load);
    row[receiver].take(load);
    Ok(())
}
