ghost use Rattle.std.specs.Prelude.{◌≡◌, ◌≤◌, length};

use kinds::cash::Cash;

// The cash row of a new table without its companies: the bank, then the seats. Those beyond the players hold nothing. The
// row has a fixed size, since a deal must not fail for want of memory.
#[derive(Drop)]
pub struct Opening {
    pub(crate) players: u8,
    pub(crate) cash: [Cash; 7],
    ghost seated: { players ≤ 6 },
    ghost wide: { length cash ≡ 7 },
}
