ghost use Rattle.std.specs.Prelude.{◌<◌};

pub mod hand;
pub mod value;

// The certificates of one company in a hand, one bit for each of the nine.
#[derive(Clone, Copy, PartialEq, Eq, Debug)]
pub struct Papers {
    certificates: u16,
    ghost nine: { certificates < 512 },
}
