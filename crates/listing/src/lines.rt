ghost use Rattle.std.specs.Prelude.{◌≡◌, ◌++◌, string_bytes, OnOk};
ghost use Rattle.entries.specs.Entry.{view};
ghost use Rattle.listing.specs.Lines.{line};

use entries::record::Record;
use std::alloc::AllocError;

pub fn push_record(text: &mut String, place: usize, record: Record) -> Result<(), AllocError>
    ensures { OnOk result (string_bytes text.new ≡ string_bytes text.old ++ line place (view «record»)) }
{
    writeln!(text, "{place} {record}")
}
