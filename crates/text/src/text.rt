ghost use Rattle.std.specs.Prelude.{◌≤◌};

// How many bytes a text holds at most.
pub(crate) const CAPACITY: usize = 512;

// Text of at most `CAPACITY` bytes, the first `len` of `bytes`. What does not fit is cut off. It has its own buffer, since
// an `ArrayVec` is not `Copy`, as a text is, and an `ArrayString` takes no byte outside UTF-8.
#[derive(Clone, Copy)]
pub struct Text {
    pub(crate) bytes: [u8; CAPACITY],
    pub(crate) len: usize,
    ghost within: { len ≤ 512 },
}
