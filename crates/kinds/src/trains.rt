ghost use Rattle.std.specs.Prelude.{◌≡◌, ℕ, ◌≤◌, length, slice_index};

pub mod hand;
pub mod value;

// How many trains of each of the eight kinds a hand holds.
#[derive(Clone, Copy, PartialEq, Eq, Debug)]
pub struct Trains {
    counts: [u8; 8],
    ghost eight: { length counts ≡ 8 },
    ghost small: { ((k : ℕ) → slice_index counts k ≤ 255) },
}
