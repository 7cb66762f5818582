ghost use Rattle.std.specs.Prelude.{◌≡◌};
ghost use Rattle.text.specs.Text.{copied, shown};

use crate::refusal::TextRefusal;
use crate::text::Text;

impl Text {
    pub fn as_bytes(&self) -> &[u8]
        ensures { result.now ≡ shown self.now }
    {
        &self.bytes[0..self.len]
    }

    // Copies the text to the front of `out` and answers its length; where it does not fit, `out` stays as it is.
    pub fn copy_to(&self, out: &mut [u8]) -> Result<usize, TextRefusal>
        ensures { (result, out.new) ≡ copied (shown self.now) out.old }
    {
        if out.len() < self.len {
            return Err(TextRefusal::BufferTooShort);
        }
        out[0..self.len].copy_from_slice(self.as_bytes());
        Ok(self.len)
    }
}
