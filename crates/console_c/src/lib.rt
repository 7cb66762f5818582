// What the console says of a game file, for callers in C and Rust.
#![tactic(auto)]

ghost use Rattle.std.specs.Prelude.{◌≡◌};
ghost use Rattle.statement_text.specs.Buffer.{handed_over};
ghost use Rattle.console.specs.Console.{console_text};
ghost use Rattle.console_c.specs.Crossing.{length_or_nought};

use console::write_text;

// A slice crosses as a pointer and a length, and 0 says that the buffer is too short.
#[unsafe(no_mangle)]
pub extern "C" fn console_statement(file: &[u8], buffer: &mut [u8]) -> usize
    ensures { (result, buffer.new) ≡ length_or_nought (handed_over (console_text file.now) buffer.old) }
{
    write_text(file, buffer).unwrap_or(0)
}
