// Why a call of the table was refused.
ghost use Rattle.std.specs.Prelude.{◌≡◌, Some};
ghost use Rattle.faults.specs.Numbers.{table_number};
ghost use Rattle.faults.specs.Layers.{in_call};
ghost use Rattle.faults.specs.Words.{call_words, table_words, table_line};
ghost use Rattle.faults.specs.declared.table.TableRefusal.TheVariants.{Carry};

use hands::fault::CarryFault;
use std::error::Error;
use std::fmt;

#[derive(Clone, Copy, PartialEq, Eq, Debug)]
pub enum CallName {
    Open,
    Sell,
    Buy,
    End,
    Close,
    Bill,
    Payout,
    Train,
    Done,
    Reopen,
}

impl fmt::Display for CallName {
    ghost output = { λ call. Some (call_words call) };

    fn fmt<W: fmt::Write>(&self, f: &mut fmt::Formatter<W>) -> fmt::Result {
        f.write_str(match self {
            CallName::Open => "open",
            CallName::Sell => "sell",
            CallName::Buy => "buy",
            CallName::End => "end",
            CallName::Close => "close",
            CallName::Bill => "bill",
            CallName::Payout => "payout",
            CallName::Train => "train",
            CallName::Done => "done",
            CallName::Reopen => "reopen",
        })
    }
}

#[derive(Clone, Copy, PartialEq, Eq, Debug)]
pub enum TableRefusal {
    NoOpeningCash,
    WrongCard,
    NoSuchSeat,
    NotOnTurn,
    NoSuchCompany,
    AlreadyBought,
    TenthsNotHeld,
    PoolLimit,
    DirectorNeeded,
    SoldThisRound,
    NoSuchSource,
    SourceEmpty,
    NoParSpace,
    CertificateLimit,
    ShareLimit,
    BankFloor,
    RoundOver,
    RoundNotOver,
    LastRound,
    CompanyNotOnTurn,
    AlreadyPaidOut,
    AmountOutOfRange,
    RevenueOutOfRange,
    NoSuchMode,
    NoTrain,
    NotLowestKind,
    NotPaidOut,
    TrainOwed,
    CompanyOnTurn,
    Carry(CarryFault),
}

impl From<CarryFault> for TableRefusal {
    ghost from_gives = { λ e r. r ≡ Carry e };

    fn from(fault: CarryFault) -> TableRefusal {
        TableRefusal::Carry(fault)
    }
}

impl TableRefusal {
    pub fn number(self) -> u8
        ensures { result ≡ table_number self }
    {
        match self {
            TableRefusal::NoOpeningCash => 10,
            TableRefusal::WrongCard => 20,
            TableRefusal::NoSuchSeat => 21,
            TableRefusal::NotOnTurn => 22,
            TableRefusal::NoSuchCompany => 23,
            TableRefusal::AlreadyBought => 24,
            TableRefusal::TenthsNotHeld => 25,
            TableRefusal::PoolLimit => 26,
            TableRefusal::DirectorNeeded => 27,
            TableRefusal::SoldThisRound => 28,
            TableRefusal::NoSuchSource => 29,
            TableRefusal::SourceEmpty => 30,
            TableRefusal::NoParSpace => 31,
            TableRefusal::CertificateLimit => 32,
            TableRefusal::ShareLimit => 33,
            TableRefusal::BankFloor => 34,
            TableRefusal::RoundOver => 35,
            TableRefusal::RoundNotOver => 36,
            TableRefusal::LastRound => 37,
            TableRefusal::CompanyNotOnTurn => 40,
            TableRefusal::AlreadyPaidOut => 41,
            TableRefusal::AmountOutOfRange => 42,
            TableRefusal::RevenueOutOfRange => 43,
            TableRefusal::NoSuchMode => 44,
            TableRefusal::NoTrain => 45,
            TableRefusal::NotLowestKind => 46,
            TableRefusal::NotPaidOut => 47,
            TableRefusal::TrainOwed => 48,
            TableRefusal::CompanyOnTurn => 49,
            TableRefusal::Carry(fault) => fault.refusal.number(),
        }
    }
}

impl fmt::Display for TableRefusal {
    ghost output = { λ refusal. Some (table_words refusal) };

    fn fmt<W: fmt::Write>(&self, f: &mut fmt::Formatter<W>) -> fmt::Result {
        f.write_str(match self {
            TableRefusal::NoOpeningCash => "no opening cash for so many players",
            TableRefusal::WrongCard => "not the card of this round",
            TableRefusal::NoSuchSeat => "no such seat",
            TableRefusal::NotOnTurn => "the seat is not on turn",
            TableRefusal::NoSuchCompany => "no such company",
            TableRefusal::AlreadyBought => "already bought this turn",
            TableRefusal::TenthsNotHeld => "the seat does not hold so many tenths",
            TableRefusal::PoolLimit => "above the pool limit",
            TableRefusal::DirectorNeeded => "nobody else can be director",
            TableRefusal::SoldThisRound => "already sold this round",
            TableRefusal::NoSuchSource => "no such source",
            TableRefusal::SourceEmpty => "the source is empty",
            TableRefusal::NoParSpace => "not a par space",
            TableRefusal::CertificateLimit => "above the certificate limit",
            TableRefusal::ShareLimit => "above the share limit",
            TableRefusal::BankFloor => "below the bank's floor",
            TableRefusal::RoundOver => "the round is over",
            TableRefusal::RoundNotOver => "the round is not over",
            TableRefusal::LastRound => "the last round",
            TableRefusal::CompanyNotOnTurn => "the company is not on turn",
            TableRefusal::AlreadyPaidOut => "already paid out this turn",
            TableRefusal::AmountOutOfRange => "the amount is out of range",
            TableRefusal::RevenueOutOfRange => "the revenue is out of range",
            TableRefusal::NoSuchMode => "no such mode",
            TableRefusal::NoTrain => "the company has no train",
            TableRefusal::NotLowestKind => "not the lowest train",
            TableRefusal::NotPaidOut => "not paid out this turn",
            TableRefusal::TrainOwed => "the company must buy a train",
            TableRefusal::CompanyOnTurn => "a company is on turn",
            TableRefusal::Carry(fault) => return write!(f, "{fault}"),
        })
    }
}

// Which call was refused, and why.
#[derive(Clone, Copy, PartialEq, Eq, Debug)]
pub struct TableFault {
    pub call: CallName,
    pub refusal: TableRefusal,
}

impl fmt::Display for TableFault {
    ghost output = { λ fault. Some (table_line fault) };

    fn fmt<W: fmt::Write>(&self, f: &mut fmt::Formatter<W>) -> fmt::Result {
        let TableFault { call, refusal } = self;
        write!(f, "{call}: {refusal}")
    }
}

impl Error for TableFault {}

// Names the call, which a refusal does not know.
pub fn in_call<T>(call: CallName, answer: Result<T, TableRefusal>) -> Result<T, TableFault>
    ensures { result ≡ in_call call answer }
{
    answer.map_err(|refusal| TableFault { call, refusal })
}
