// What a record says. The fields have the widths that they have in a file.
ghost use Rattle.std.specs.Prelude.{◌≡◌, Some};
ghost use Rattle.entries.specs.Entry.{view};
ghost use Rattle.entries.specs.Text.{entry_words};
ghost use Rattle.entries.specs.Writing.{size};

use std::fmt;

#[derive(Clone, Copy, PartialEq, Eq, Debug)]
pub enum Record {
    Open {
        book: u8,
        players: u8,
    },
    Sell {
        seat: u8,
        company: u8,
        tenths: u8,
    },
    Buy {
        seat: u8,
        company: u8,
        source: u8,
        par_space: u8,
    },
    End {
        seat: u8,
    },
    Close,
    Bill {
        company: u8,
        amount: u16,
    },
    Payout {
        company: u8,
        mode: u8,
        revenue: u16,
    },
    Train {
        company: u8,
        kind: u8,
    },
    Done {
        company: u8,
    },
    Reopen,
}

impl Record {
    // How many bytes its writing has, with the kind byte.
    pub fn size(self) -> usize
        ensures { result ≡ size (view self) }
    {
        match self {
            Record::Open { .. } | Record::Train { .. } => 3,
            Record::Sell { .. } | Record::Bill { .. } => 4,
            Record::Buy { .. } | Record::Payout { .. } => 5,
            Record::End { .. } | Record::Done { .. } => 2,
            Record::Close | Record::Reopen => 1,
        }
    }
}

// A record's name, and its fields in order.
impl fmt::Display for Record {
    ghost output = { λ r. Some (entry_words (view r)) };

    fn fmt<W: fmt::Write>(&self, f: &mut fmt::Formatter<W>) -> fmt::Result {
        match *self {
            Record::Open { book, players } => write!(f, "open {book} {players}"),
            Record::Sell {
                seat,
                company,
                tenths,
            } => write!(f, "sell {seat} {company} {tenths}"),
            Record::Buy {
                seat,
                company,
                source,
                par_space,
            } => write!(f, "buy {seat} {company} {source} {par_space}"),
            Record::End { seat } => write!(f, "end {seat}"),
            Record::Close => write!(f, "close"),
            Record::Bill { company, amount } => write!(f, "bill {company} {amount}"),
            Record::Payout {
                company,
                mode,
                revenue,
            } => write!(f, "payout {company} {mode} {revenue}"),
            Record::Train { company, kind } => write!(f, "train {company} {kind}"),
            Record::Done { company } => write!(f, "done {company}"),
            Record::Reopen => write!(f, "reopen"),
        }
    }
}
