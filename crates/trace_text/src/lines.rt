// The line that tells a crossing: who gives what to whom.
ghost use Rattle.std.specs.Prelude.{Some, string_bytes, OnOk};
ghost use Rattle.crossings.specs.Views.{view};
ghost use Rattle.trace_text.specs.Lines.{numbers_from, cash_line, papers_line, trains_line, crossing_line};
ghost use Rattle.trace_text.specs.Pushed.{Pushed};

use crate::places::{cash_place_at, paper_place_at, train_place_at};
use crossings::crossing::Crossing;
use kinds::certificate_set::CertificateSet;
use kinds::train_load::TrainLoad;
use std::alloc::AllocError;
use std::fmt;

// One line for each kind of load. They share only the two hands, which each kind names in its own way.
fn push_cash(
    text: &mut String,
    players: u8,
    giver: usize,
    receiver: usize,
    marks: u32,
) -> Result<(), AllocError>
    ensures { OnOk result (Pushed (string_bytes text.old) (string_bytes text.new) (cash_line players giver receiver marks)) }
{
    let giver = cash_place_at(players, giver);
    let receiver = cash_place_at(players, receiver);
    writeln!(text, "  {giver} pays {receiver} {marks}")
}

// The numbers of a set's certificates, with a blank before each.
#[derive(Clone, Copy)]
struct Numbers(CertificateSet);

impl fmt::Display for Numbers {
    ghost output = { λ numbers. Some (numbers_from numbers.0.bits 0 16) };

    fn fmt<W: fmt::Write>(&self, f: &mut fmt::Formatter<W>) -> fmt::Result {
        for number in 0..16u8 {
            if self.0.contains(number) {
                write!(f, " {number}")?;
            }
        }
        Ok(())
    }
}

fn push_papers(
    text: &mut String,
    company: u8,
    giver: usize,
    receiver: usize,
    certificates: CertificateSet,
) -> Result<(), AllocError>
    ensures { OnOk result (Pushed (string_bytes text.old) (string_bytes text.new) (papers_line company giver receiver certificates.bits)) }
{
    let giver = paper_place_at(giver);
    let receiver = paper_place_at(receiver);
    let numbers = Numbers(certificates);
    writeln!(
        text,
        "  company {company}: {giver} gives {receiver} certificates{numbers}"
    )
}

fn push_trains(
    text: &mut String,
    giver: usize,
    receiver: usize,
    load: TrainLoad,
) -> Result<(), AllocError>
    ensures { OnOk result (Pushed (string_bytes text.old) (string_bytes text.new) (trains_line giver receiver load)) }
{
    let giver = train_place_at(giver);
    let receiver = train_place_at(receiver);
    let TrainLoad { kind, count } = load;
    if count == 1 {
        return writeln!(text, "  {giver} gives {receiver} train {kind}");
    }
    writeln!(text, "  {giver} gives {receiver} {count} trains {kind}")
}

// Two blanks, what crosses, and the end of the line. The number of players tells seats and companies apart.
pub fn push_crossing(text: &mut String, players: u8, crossing: Crossing) -> Result<(), AllocError>
    ensures { OnOk result (Pushed (string_bytes text.old) (string_bytes text.new) (crossing_line players (view crossing))) }
{
    match crossing {
        Crossing::Cash {
            giver,
            receiver,
            marks,
        } => push_cash(text, players, giver, receiver, marks),
        Crossing::Papers {
            company,
            giver,
            receiver,
            certificates,
        } => push_papers(text, company, giver, receiver, certificates),
        Crossing::Trains {
            giver,
            receiver,
            load,
        } => push_trains(text, giver, receiver, load),
    }
}
