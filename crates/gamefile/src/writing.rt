ghost use Rattle.std.specs.Prelude.{◌≡◌};
ghost use Rattle.entries.specs.Entry.{view};
ghost use Rattle.entries.specs.Writing.{put, written};

use entries::record::Record;
use faults::file::{FileFault, FileRefusal};

// Puts bytes at the front of a buffer, or leaves it as it was if they do not fit.
// What the rest of the buffer is after a borrow of its front, as by get_mut, is not proved, so the length is compared first.
fn put_front(bytes: &[u8], out: &mut [u8]) -> Result<usize, FileFault>
    ensures { (result, out.new) ≡ put bytes.now out.old }
{
    let count = bytes.len();
    if out.len() < count {
        return Err(FileFault {
            refusal: FileRefusal::BufferTooShort,
            place: 0,
        });
    }
    out[..count].copy_from_slice(bytes);
    Ok(count)
}

// Writes a record at the front of a buffer, and answers how many bytes it has.
pub fn write(record: Record, out: &mut [u8]) -> Result<usize, FileFault>
    ensures { (result, out.new) ≡ written (view «record») out.old }
{
    match record {
        Record::Open { book, players } => put_front(&[1, book, players], out),
        Record::Sell {
            seat,
            company,
            tenths,
        } => put_front(&[2, seat, company, tenths], out),
        Record::Buy {
            seat,
            company,
            source,
            par_space,
        } => put_front(&[3, seat, company, source, par_space], out),
        Record::End { seat } => put_front(&[4, seat], out),
        Record::Close => put_front(&[5], out),
        Record::Bill { company, amount } => {
            let [high, low] = amount.to_be_bytes();
            put_front(&[6, company, high, low], out)
        }
        Record::Payout {
            company,
            mode,
            revenue,
        } => {
            let [high, low] = revenue.to_be_bytes();
            put_front(&[7, company, mode, high, low], out)
        }
        Record::Train { company, kind } => put_front(&[8, company, kind], out),
        Record::Done { company } => put_front(&[9, company], out),
        Record::Reopen => put_front(&[10], out),
    }
}
