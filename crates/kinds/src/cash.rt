ghost use Rattle.std.specs.Prelude.{pos, ◌≤ℤ◌};
ghost use Rattle.kinds.specs.Floor.{floor_marks};

use crate::cash_floor::CashFloor;

pub mod hand;
pub mod value;

// Marks in a hand, never below its floor nor above the ceiling.
#[derive(Clone, Copy, PartialEq, Eq, Debug)]
pub struct Cash {
    marks: i32,
    floor: CashFloor,
    ghost low: { floor_marks floor ≤ℤ marks },
    ghost high: { marks ≤ℤ pos 1000000 },
}
