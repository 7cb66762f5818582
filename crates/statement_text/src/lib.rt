// The statement of a table as text in a lent buffer, and the line that tells a fault.
#![tactic(auto)]

ghost use Rattle.std.specs.Prelude.{◌≡◌};
ghost use Rattle.text.specs.Lines.{refused_at_line};
ghost use Rattle.faults.specs.Numbers.{file_number};
ghost use Rattle.statement_text.specs.Statement.{statement_of};
ghost use Rattle.statement_text.specs.Buffer.{handed_over};

use faults::file::FileFault;
use rulebook::book::RuleBook;
use table::table::Table;
use text::Text;

mod buffer;
mod lines;

// Writes the statement at the front of the buffer and answers its length.
pub fn statement<B: RuleBook>(table: &Table<B>, buffer: &mut [u8]) -> Result<usize, FileFault>
    ensures { (result, buffer.new) ≡ handed_over (statement_of (B.meaning table.now.book) table.now.books) buffer.old }
{
    let text = lines::statement_lines(table.book(), table.books());
    buffer::hand_over(&text, buffer)
}

// The same of the line that is printed for a fault.
pub fn refusal_line(fault: FileFault, buffer: &mut [u8]) -> Result<usize, FileFault>
    ensures { (result, buffer.new) ≡ handed_over (refused_at_line (file_number fault.refusal) fault.place) buffer.old }
{
    let mut text = Text::empty();
    text.push_refused_at_line(fault.refusal.number(), fault.place);
    buffer::hand_over(&text, buffer)
}
