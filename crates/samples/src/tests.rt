use dealing::listing::opening_text;
use hands::carrying::carry;
use hands::fault::CarryFault;
use hands::hand::Hand;
use kinds::cash::Cash;
use kinds::cash_floor::CashFloor;
use kinds::certificate_set::CertificateSet;
use kinds::papers::Papers;
use kinds::train_load::TrainLoad;
use kinds::trains::Trains;
use std::test::Fail;

// The number of a refusal, or 0 where the carry was granted.
fn number(answer: Result<(), CarryFault>) -> u8 {
    answer.err().map_or(0, |fault| fault.refusal.number())
}

#[test]
fn the_bank_stops_at_its_floor(rt: HostRuntime) -> Result<(), Fail> {
    let Some(bank) = Cash::new(CashFloor::Overdraft, -19_900) else {
        return Err(Fail::new("no such bank"));
    };
    let mut row = [bank, Cash::holding(CashFloor::Zero, 0)];
    assert_eq!(rt; number(carry(&mut row, 0, 1, 101)), 3);
    assert_eq!(rt; number(carry(&mut row, 0, 1, 100)), 0);
    assert_eq!(rt; row[0].marks(), -20_000);
    assert_eq!(rt; row[1].marks(), 100);
    assert_eq!(rt; number(carry(&mut row, 1, 0, 101)), 3);
    Ok(())
}

#[test]
fn cash_is_refused_in_order(rt: HostRuntime) -> Result<(), Fail> {
    let Some(full) = Cash::new(CashFloor::Zero, 1_000_000) else {
        return Err(Fail::new("no such hand"));
    };
    let mut row = [full, full];
    assert_eq!(rt; number(carry(&mut row, 2, 2, 1)), 1);
    assert_eq!(rt; number(carry(&mut row, 1, 1, 4_000_000_000)), 2);
    assert_eq!(rt; number(carry(&mut row, 0, 1, 4_000_000_000)), 3);
    assert_eq!(rt; number(carry(&mut row, 0, 1, 1)), 4);
    assert_eq!(rt; number(carry(&mut row, 0, 1, 0)), 0);
    assert!(rt; Cash::new(CashFloor::Overdraft, -20_001).is_none());
    Ok(())
}

#[test]
fn papers_move_as_sets(rt: HostRuntime) {
    let mut row = [Papers::all(), Papers::none()];
    assert_eq!(rt; row[0].tenths(), 10);
    assert_eq!(rt;
        number(carry(&mut row, 0, 1, CertificateSet { bits: 0x201 })),
        3
    );
    assert_eq!(rt;
        number(carry(&mut row, 0, 1, CertificateSet { bits: 0x003 })),
        0
    );
    assert_eq!(rt;
        number(carry(&mut row, 0, 1, CertificateSet { bits: 0x002 })),
        3
    );
    assert_eq!(rt; row[1].count(), 2);
    assert_eq!(rt; row[1].tenths(), 3);
    assert_eq!(rt; row[0].certificates().bits, 0x1fc);
}

#[test]
fn trains_move_by_kind(rt: HostRuntime) {
    let mut row = [
        Trains::new([7, 4, 3, 3, 2, 0, 0, 255]),
        Trains::new([0, 0, 0, 0, 0, 0, 0, 1]),
    ];
    assert_eq!(rt;
        number(carry(&mut row, 0, 1, TrainLoad { kind: 8, count: 0 })),
        3
    );
    assert_eq!(rt;
        number(carry(&mut row, 0, 1, TrainLoad { kind: 4, count: 3 })),
        3
    );
    assert_eq!(rt;
        number(carry(
            &mut row,
            0,
            1,
            TrainLoad {
                kind: 7,
                count: 255,
            },
        )),
        4
    );
    assert_eq!(rt;
        number(carry(&mut row, 0, 1, TrainLoad { kind: 4, count: 2 })),
        0
    );
    assert_eq!(rt; row[0].count(4), 0);
    assert_eq!(rt; row[1].count(4), 2);
}

#[test]
fn openings_are_listed(rt: HostRuntime) {
    assert!(rt;
        opening_text(1, 3).as_bytes()
            == b"bank 6600\nseat 1 800 0\nseat 2 800 0\nseat 3 800 0\n".as_slice()
    );
    assert!(rt;
        opening_text(2, 3).as_bytes()
            == b"bank 8200\nseat 1 600 0\nseat 2 600 0\nseat 3 600 0\n".as_slice()
    );
    assert!(rt; opening_text(2, 2).as_bytes() == b"refused 10\n".as_slice());
    assert!(rt; opening_text(1, 7).as_bytes() == b"refused 10\n".as_slice());
    assert!(rt; opening_text(1, 4_294_967_295).as_bytes() == b"refused 10\n".as_slice());
    assert!(rt; opening_text(9, 3).as_bytes() == b"refused 55\n".as_slice());
    assert!(rt; opening_text(0, 300).as_bytes() == b"refused 55\n".as_slice());
}
