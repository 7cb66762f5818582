ghost use Rattle.std.specs.Prelude.{◌≡◌, ◌+◌, ◌*◌, ◌<◌, ◌≤◌, length, drop, IfOk, slice_index};
ghost use Rattle.entries.specs.Laws.{SingleRecords};
ghost use Rattle.entries.specs.Reading.{pair, stock_entry, operating_entry, known, first, read_at, seen, seen_one};

use entries::record::Record;
use faults::file::{FileFault, FileRefusal};

// The byte at an index, or 0 past the end.
fn byte_at(bytes: &[u8], i: usize) -> u8
    ensures { result ≡ slice_index bytes.now i }
{
    bytes.get(i).copied().unwrap_or(0)
}

// The field of two bytes at an index, high byte first.
fn pair_at(bytes: &[u8], i: usize) -> u16
    requires { i < 8 }
    ensures { result ≡ pair bytes.now i }
{
    u16::from_be_bytes([byte_at(bytes, i), byte_at(bytes, i + 1)])
}

// The record that the kind byte asks for, from the bytes after it: open and the calls of a stock round.
fn stock_record(bytes: &[u8]) -> Option<Record>
    ensures { seen_one result ≡ stock_entry bytes.now }
{
    match byte_at(bytes, 0) {
        1 => Some(Record::Open {
            book: byte_at(bytes, 1),
            players: byte_at(bytes, 2),
        }),
        2 => Some(Record::Sell {
            seat: byte_at(bytes, 1),
            company: byte_at(bytes, 2),
            tenths: byte_at(bytes, 3),
        }),
        3 => Some(Record::Buy {
            seat: byte_at(bytes, 1),
            company: byte_at(bytes, 2),
            source: byte_at(bytes, 3),
            par_space: byte_at(bytes, 4),
        }),
        4 => Some(Record::End {
            seat: byte_at(bytes, 1),
        }),
        5 => Some(Record::Close),
        _ => None,
    }
}

// The same for the calls of an operating round.
fn operating_record(bytes: &[u8]) -> Option<Record>
    ensures { seen_one result ≡ operating_entry bytes.now }
{
    match byte_at(bytes, 0) {
        6 => Some(Record::Bill {
            company: byte_at(bytes, 1),
            amount: pair_at(bytes, 2),
        }),
        7 => Some(Record::Payout {
            company: byte_at(bytes, 1),
            mode: byte_at(bytes, 2),
            revenue: pair_at(bytes, 3),
        }),
        8 => Some(Record::Train {
            company: byte_at(bytes, 1),
            kind: byte_at(bytes, 2),
        }),
        9 => Some(Record::Done {
            company: byte_at(bytes, 1),
        }),
        10 => Some(Record::Reopen),
        _ => None,
    }
}

// The two halves together would be longer than a function may be.
fn known_record(bytes: &[u8]) -> Option<Record>
    ensures { seen_one result ≡ known bytes.now }
{
    stock_record(bytes).or_else(|| operating_record(bytes))
}

// The record that the bytes begin with, and how many of them are its own.
fn first_record(bytes: &[u8]) -> Result<(Record, usize), FileRefusal>
    ensures value { seen result ≡ first bytes.now }
    ensures within { IfOk result (λ x. (0 < x.1) × (x.1 ≤ length bytes.now)) }
{
    if bytes.is_empty() {
        return Err(FileRefusal::CutBody);
    }
    let record = known_record(bytes).ok_or(FileRefusal::UnknownKind)?;
    let size = record.size();
    if bytes.len() < size {
        return Err(FileRefusal::CutBody);
    }
    Ok((record, size))
}

// The bytes from a place on, and none past the end.
fn bytes_from(file: &[u8], place: usize) -> &[u8]
    ensures { result.now ≡ drop place file.now }
{
    file.get(place..).unwrap_or(&[])
}

// Reads the record at a place, and answers it with the place after it.
pub fn read(file: &[u8], place: usize) -> Result<(Record, usize), FileFault>
    ensures value { seen result ≡ read_at file.now place }
    ensures within { IfOk result (λ x. (place < x.1) × (x.1 ≤ length file.now)) }
    ensures laws { SingleRecords }
{
    let bytes = bytes_from(file, place);
    let (record, size) = first_record(bytes).map_err(|refusal| FileFault { refusal, place })?;
    Ok((record, place + size))
}
