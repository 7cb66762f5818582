ghost use Rattle.std.specs.Prelude.{◌≡◌, ◌++◌, IfOk, string_bytes, OnOk};
ghost use Rattle.entries.specs.Laws.{WholeFiles};
ghost use Rattle.entries.specs.Whole.{reading};
ghost use Rattle.listing.specs.Listing.{lines, listing_of};

use crate::lines::push_record;
use faults::file::{FileFault, FileRefusal};
use gamefile::records::{LONGEST, records_from};
use std::alloc::{AllocError, Global};

// A line for each record of a file of lawful length, and for the fault that ends the reading, if there is one.
fn push_file(text: &mut String, file: &[u8]) -> Result<(), AllocError>
    ensures { OnOk result (string_bytes text.new ≡ string_bytes text.old ++ lines (reading file.now)) }
{
    for found in records_from(file, 0) {
        match found {
            Ok((place, record)) => push_record(text, place, record)?,
            Err(fault) => writeln!(text, "{fault}")?,
        }
    }
    Ok(())
}

fn push_listing(text: &mut String, file: &[u8]) -> Result<(), AllocError>
    ensures { OnOk result (string_bytes text.new ≡ string_bytes text.old ++ listing_of file.now) }
{
    if file.len() > LONGEST {
        let fault = FileFault {
            refusal: FileRefusal::FileTooLong,
            place: 0,
        };
        return writeln!(text, "{fault}");
    }
    push_file(text, file)
}

// A game file as text; the only error is want of memory.
pub fn listing(heap: Global, file: &[u8]) -> Result<String, AllocError>
    ensures text { IfOk result (λ s. string_bytes s ≡ listing_of file.now) }
    ensures whole { WholeFiles }
{
    let mut text = String::new(heap);
    push_listing(&mut text, file)?;
    Ok(text)
}
