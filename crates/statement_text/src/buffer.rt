ghost use Rattle.std.specs.Prelude.{◌≡◌};
ghost use Rattle.text.specs.Text.{shown};
ghost use Rattle.statement_text.specs.Buffer.{handed_over};

use faults::file::{FileFault, FileRefusal};
use text::{Text, TextRefusal};

// Copies a text to the front of the buffer and answers its length; where it does not fit, the buffer stays as it is.
pub(crate) fn hand_over(text: &Text, buffer: &mut [u8]) -> Result<usize, FileFault>
    ensures { (result, buffer.new) ≡ handed_over (shown text.now) buffer.old }
{
    text.copy_to(buffer)
        .map_err(|TextRefusal::BufferTooShort| FileFault {
            refusal: FileRefusal::BufferTooShort,
            place: 0,
        })
}
