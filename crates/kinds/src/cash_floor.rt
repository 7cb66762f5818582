// How far a cash hand may go down.
ghost use Rattle.std.specs.Prelude.{◌≡◌};
ghost use Rattle.kinds.specs.Floor.{floor_marks};

#[derive(Clone, Copy, PartialEq, Eq, Debug)]
pub enum CashFloor {
    Zero,
    Overdraft,
}

impl CashFloor {
    pub fn marks(self) -> i32
        ensures { result ≡ floor_marks self }
    {
        match self {
            CashFloor::Zero => 0,
            CashFloor::Overdraft => -20_000,
        }
    }
}
