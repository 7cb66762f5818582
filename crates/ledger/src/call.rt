// A call with the number of the card that it is made with, and its arguments: all of any value.
#[derive(Clone, Copy, PartialEq, Eq, Debug)]
pub enum Call {
    Sell {
        card: u16,
        seat: u8,
        company: u8,
        tenths: u8,
    },
    Buy {
        card: u16,
        seat: u8,
        company: u8,
        source: u8,
        par: u16,
    },
    End {
        card: u16,
        seat: u8,
    },
    Close {
        card: u16,
    },
    Bill {
        card: u16,
        company: u8,
        amount: u16,
    },
    Payout {
        card: u16,
        company: u8,
        mode: u8,
        revenue: u16,
    },
    Train {
        card: u16,
        company: u8,
        kind: u8,
    },
    Done {
        card: u16,
        company: u8,
    },
    Reopen {
        card: u16,
    },
}
