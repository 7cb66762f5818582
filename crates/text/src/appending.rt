ghost use Rattle.std.specs.Prelude.{◌≡◌, [], ◌∷◌, decimal};
ghost use Rattle.std.specs.Fmt.{signed_decimal};
ghost use Rattle.text.specs.Text.{added, shown};

use crate::text::{CAPACITY, Text};
use itoa::Buffer;

impl Text {
    pub fn empty() -> Text
        ensures { shown result ≡ [] }
    {
        Text {
            bytes: [0; CAPACITY],
            len: 0,
        }
    }

    pub fn push(&mut self, byte: u8)
        ensures { shown self.new ≡ added (shown self.old) (byte ∷ []) }
    {
        self.push_bytes(&[byte]);
    }

    // Appends as much of `piece` as there is room for.
    pub fn push_bytes(&mut self, piece: &[u8])
        ensures { shown self.new ≡ added (shown self.old) piece.now }
    {
        let count = piece.len().min(CAPACITY - self.len);
        let end = self.len + count;
        self.bytes[self.len..end].copy_from_slice(&piece[0..count]);
        self.len = end;
    }

    // Writes `n` in decimal, with no leading zeros.
    pub fn push_number(&mut self, n: u64)
        ensures { shown self.new ≡ added (shown self.old) (decimal n) }
    {
        self.push_bytes(Buffer::new().format(n).as_bytes());
    }

    // Writes `z` in decimal, after a minus sign if it is below nought. Apart from `push_number`, since one function over both
    // types could only promise `N.text n`, which names no digits.
    pub fn push_signed(&mut self, z: i32)
        ensures { shown self.new ≡ added (shown self.old) (signed_decimal z) }
    {
        self.push_bytes(Buffer::new().format(z).as_bytes());
    }
}
