ghost use Rattle.std.specs.Prelude.{◌≡◌, pos, Some};
ghost use Rattle.kinds.specs.Cash.{cash_new};

use super::Cash;
use crate::cash_floor::CashFloor;
use hands::tallied::Tallied;

impl Cash {
    // A hand with so many marks, if they lie from its floor to the ceiling.
    pub fn new(floor: CashFloor, marks: i32) -> Option<Cash>
        ensures { result ≡ cash_new floor marks }
    {
        if marks < floor.marks() || marks > Self::CEILING as i32 {
            return None;
        }
        Some(Cash { marks, floor })
    }

    // So few marks fit every hand.
    pub fn holding(floor: CashFloor, marks: u16) -> Cash
        ensures { Some result ≡ cash_new floor (pos marks) }
    {
        Cash {
            marks: i32::from(marks),
            floor,
        }
    }

    pub fn marks(&self) -> i32
        ensures { result ≡ self.now.marks }
    {
        self.marks
    }

    pub fn floor(&self) -> CashFloor
        ensures { result ≡ self.now.floor }
    {
        self.floor
    }
}
