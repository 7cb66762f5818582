use entries::record::Record;
use faults::file::{FileFault, FileRefusal, at_place};
use faults::table::{CallName, TableFault, TableRefusal, in_call};
use gamefile::reading::read;
use gamefile::writing::write;
use hands::carrying::carry;
use hands::fault::{CarryFault, CarryRefusal};
use hands::hand::Hand;
use kinds::cash::Cash;
use kinds::cash_floor::CashFloor;
use listing::listing;
use std::alloc::AllocGlobal;
use std::process::Abort;
use std::test::*;

const MARK: u8 = 170;

const CLOSE: u8 = 5;

fn fault(refusal: FileRefusal, place: usize) -> FileFault {
    FileFault { refusal, place }
}

// What the listing of a file is.
fn listed(rt: &(impl Abort + AllocGlobal), file: &[u8], text: &[u8]) -> Result<(), Fail> {
    let found = listing(rt.alloc(), file)?;
    assert!(rt; found.as_bytes() == text);
    Ok(())
}

// No cut of a record is one: neither at the start of a file nor after a close.
fn every_cut(rt: &(impl Abort + AllocGlobal), bytes: &[u8]) -> Result<(), Fail> {
    assert!(rt; read(&[], 0) == Err(fault(FileRefusal::CutBody, 0)));
    for cut in 1..bytes.len() {
        assert!(rt; read(&bytes[0..cut], 0) == Err(fault(FileRefusal::CutBody, 0)));
        listed(rt, &bytes[0..cut], b"refused 51 at 0\n")?;
        let mut file = vec![in rt.alloc(); CLOSE]?;
        file.extend_from_slice(&bytes[0..cut])?;
        assert!(rt; read(&file, 1) == Err(fault(FileRefusal::CutBody, 1)));
        listed(rt, &file, b"0 close\nrefused 51 at 1\n")?;
    }
    Ok(())
}

// A record is written as these bytes and reads back from them, wherever they stand.
fn one_record(
    rt: &(impl Abort + AllocGlobal),
    record: Record,
    bytes: &[u8],
    line: &[u8],
) -> Result<(), Fail> {
    let n = bytes.len();
    assert!(rt; 0 < n && n < 7);
    assert_eq!(rt; record.size(), n);
    let mut out = [MARK; 7];
    assert!(rt; write(record, &mut out) == Ok(n));
    assert!(rt; &out[0..n] == bytes);
    assert!(rt; &out[n..7] == &[MARK; 7][n..7]);
    assert!(rt; read(&out, 0) == Ok((record, n)));
    let mut file = vec![in rt.alloc(); CLOSE]?;
    file.extend_from_slice(&out)?;
    assert!(rt; read(&file, 1) == Ok((record, n + 1)));
    every_cut(rt, bytes)?;
    listed(rt, bytes, line)
}

// One byte too few: refused, and nothing is written.
fn one_short(rt: &impl Abort, record: Record) -> Result<(), Fail> {
    let n = record.size();
    assert!(rt; 0 < n && n < 7);
    let mut out = [MARK; 7];
    assert!(rt; write(record, &mut out[0..n - 1]) == Err(fault(FileRefusal::BufferTooShort, 0)));
    assert!(rt; out == [MARK; 7]);
    Ok(())
}

#[test]
fn stock_records(rt: HostRuntime) -> Result<(), Fail> {
    let open = Record::Open {
        book: 1,
        players: 3,
    };
    one_record(&rt, open, &[1, 1, 3], b"0 open 1 3\n")?;
    one_short(&rt, open)?;
    let sell = Record::Sell {
        seat: 4,
        company: 5,
        tenths: 6,
    };
    one_record(&rt, sell, &[2, 4, 5, 6], b"0 sell 4 5 6\n")?;
    one_short(&rt, sell)?;
    let buy = Record::Buy {
        seat: 1,
        company: 2,
        source: 0,
        par_space: 8,
    };
    one_record(&rt, buy, &[3, 1, 2, 0, 8], b"0 buy 1 2 0 8\n")?;
    one_short(&rt, buy)?;
    let end = Record::End { seat: 255 };
    one_record(&rt, end, &[4, 255], b"0 end 255\n")?;
    one_short(&rt, end)?;
    let close = Record::Close;
    one_record(&rt, close, &[5], b"0 close\n")?;
    one_short(&rt, close)?;
    Ok(())
}

#[test]
fn operating_records(rt: HostRuntime) -> Result<(), Fail> {
    let bill = Record::Bill {
        company: 2,
        amount: 300,
    };
    one_record(&rt, bill, &[6, 2, 1, 44], b"0 bill 2 300\n")?;
    one_short(&rt, bill)?;
    let payout = Record::Payout {
        company: 2,
        mode: 1,
        revenue: 65_280,
    };
    one_record(&rt, payout, &[7, 2, 1, 255, 0], b"0 payout 2 1 65280\n")?;
    one_short(&rt, payout)?;
    let train = Record::Train {
        company: 3,
        kind: 7,
    };
    one_record(&rt, train, &[8, 3, 7], b"0 train 3 7\n")?;
    one_short(&rt, train)?;
    let done = Record::Done { company: 0 };
    one_record(&rt, done, &[9, 0], b"0 done 0\n")?;
    one_short(&rt, done)?;
    let reopen = Record::Reopen;
    one_record(&rt, reopen, &[10], b"0 reopen\n")?;
    one_short(&rt, reopen)?;
    Ok(())
}

// Every first byte but 1 to 10.
fn unknown_kind(rt: &(impl Abort + AllocGlobal), kind: u8) -> Result<(), Fail> {
    assert!(rt; read(&[kind], 0) == Err(fault(FileRefusal::UnknownKind, 0)));
    let file = [CLOSE, kind, 1, 1, 1, 1];
    assert!(rt; read(&file, 1) == Err(fault(FileRefusal::UnknownKind, 1)));
    listed(rt, &file, b"0 close\nrefused 50 at 1\n")
}

#[test]
fn unknown_kinds(rt: HostRuntime) -> Result<(), Fail> {
    unknown_kind(&rt, 0)?;
    for kind in 11..=255 {
        unknown_kind(&rt, kind)?;
    }
    Ok(())
}

#[test]
fn places_past_the_end(rt: HostRuntime) -> Result<(), Fail> {
    listed(&rt, &[], b"")?;
    assert!(rt; read(&[], 0) == Err(fault(FileRefusal::CutBody, 0)));
    assert!(rt; read(&[CLOSE], 1) == Err(fault(FileRefusal::CutBody, 1)));
    assert!(rt; read(&[CLOSE], usize::MAX) == Err(fault(FileRefusal::CutBody, usize::MAX)));
    Ok(())
}

// The longest file is read to its end, and nothing of a longer one.
#[test]
fn long_files(rt: HostRuntime) -> Result<(), Fail> {
    let mut file = vec![in rt.alloc(); CLOSE; 65_536]?;
    let text = listing(rt.alloc(), &file)?;
    assert_eq!(rt; text.len(), 775_322);
    assert!(rt; text.as_bytes().ends_with(b"\n65535 close\n"));
    file.push(0)?;
    listed(&rt, &file, b"refused 54 at 0\n")
}

fn paid(row: &mut [Cash]) -> Result<(), TableRefusal> {
    carry(row, 2, 0, 300)?;
    Ok(())
}

fn bought(row: &mut [Cash], place: usize) -> Result<(), FileFault> {
    at_place(place, in_call(CallName::Buy, paid(row)))?;
    Ok(())
}

// Carry's fault comes up through table and file with both places, the call and the record's place.
#[test]
fn faults_come_up_whole(rt: HostRuntime) -> Result<(), Fail> {
    let bank = Cash::holding(CashFloor::Overdraft, 9_000);
    let seat = Cash::holding(CashFloor::Zero, 299);
    let mut row = [bank, seat, seat];
    let carried = CarryFault {
        refusal: CarryRefusal::CannotGive,
        giver: 2,
        receiver: 0,
    };
    let called = TableFault {
        call: CallName::Buy,
        refusal: TableRefusal::Carry(carried),
    };
    let told = fault(FileRefusal::Table(called), 133);
    assert!(rt; bought(&mut row, 133) == Err(told));
    assert_eq!(rt; told.refusal.number(), 3);
    Ok(())
}
