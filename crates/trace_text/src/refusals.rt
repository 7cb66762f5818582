// The line that tells a refusal: its number, its place, and what each layer says of it.
ghost use Rattle.std.specs.Prelude.{string_bytes, OnOk};
ghost use Rattle.trace_text.specs.Pushed.{Pushed};
ghost use Rattle.trace_text.specs.Words.{refusal_line};

use faults::file::FileFault;
use std::alloc::AllocError;

pub fn push_refusal(text: &mut String, fault: FileFault) -> Result<(), AllocError>
    ensures { OnOk result (Pushed (string_bytes text.old) (string_bytes text.new) (refusal_line fault)) }
{
    let refusal = fault.refusal;
    writeln!(text, "{fault}: {refusal}")
}
