// What the console says of a game file: the statement of the game that it plays, or the line of its first fault.
#![tactic(auto)]

ghost use Rattle.std.specs.Prelude.{◌≡◌};
ghost use Rattle.statement_text.specs.Buffer.{handed_over};
ghost use Rattle.console.specs.Console.{console_text};

use faults::file::FileFault;
use replay::replay;
use statement_text::{refusal_line, statement};

// Writes the text at the front of the buffer and answers its length.
pub fn write_text(file: &[u8], buffer: &mut [u8]) -> Result<usize, FileFault>
    ensures { (result, buffer.new) ≡ handed_over (console_text file.now) buffer.old }
{
    match replay(file) {
        Ok(game) => statement(&game.table, buffer),
        Err(stopped) => refusal_line(stopped.fault, buffer),
    }
}
