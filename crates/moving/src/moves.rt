// What makes the moves of a call: the books themselves, or a copy of them that notes what crosses.
ghost use Rattle.std.specs.Prelude.{◌≡◌, [], ◌∷◌, List};
ghost use Rattle.ledger.specs.Crossings.{Crossing as RuleCrossing, pays, hands, moves, all_crossed};
ghost use Rattle.ledger.specs.declared.books.Books.{Books};
ghost use Rattle.moving.specs.Moves.{MoveLaws, papers_carried};
ghost use Rattle.moving.specs.Views.{view};
ghost use Rattle.moving.specs.Laws.{books_laws};

use crate::crossing::Crossing;
use hands::carrying::carry;
use hands::hand::Hand;
use kinds::certificate_set::CertificateSet;
use kinds::train_load::TrainLoad;
use ledger::books::Books;
use ledger::company::Company;
use ledger::reading::slot;

pub trait Moves {
    ghost books_of: { Self → Books };

    // The second is the first after these crossings.
    ghost Moved: { Self → List RuleCrossing → Self → Type 0 };

    fn books(&self) -> &Books
        ensures { result.now ≡ books_of self.now };

    fn cross(&mut self, crossing: Crossing)
        ensures { Moved self.old (view crossing ∷ []) self.new };

    ghost laws: { MoveLaws books_of Moved };

    final fn pay(&mut self, giver: usize, receiver: usize, marks: u32)
        ensures { Moved self.old (pays giver receiver marks ∷ []) self.new }
    {
        self.cross(Crossing::Cash {
            giver,
            receiver,
            marks,
        });
    }

    final fn hand_over(
        &mut self,
        company: u8,
        giver: usize,
        receiver: usize,
        certificates: CertificateSet,
    )
        ensures { Moved self.old (hands company giver receiver certificates.bits ∷ []) self.new }
    {
        self.cross(Crossing::Papers {
            company,
            giver,
            receiver,
            certificates,
        });
    }

    final fn move_trains(&mut self, giver: usize, receiver: usize, load: TrainLoad)
        ensures { Moved self.old (moves giver receiver load ∷ []) self.new }
    {
        self.cross(Crossing::Trains {
            giver,
            receiver,
            load,
        });
    }
}

// A company outside the rows has no papers. The length is asked, as what a row becomes through get_mut is not proved.
fn carry_papers(
    companies: &mut [Company],
    at: usize,
    giver: usize,
    receiver: usize,
    certificates: CertificateSet,
)
    ensures { companies.new ≡ papers_carried companies.old at giver receiver certificates }
{
    if at < companies.len() {
        let record = &mut companies[at];
        let _ = carry(&mut record.papers, giver, receiver, certificates);
    }
}

// Only what a granted call moves crosses, so what carry answers is known.
impl Moves for Books {
    ghost books_of = { λ s. s };

    ghost Moved = { λ s xs t. t ≡ all_crossed s xs };

    ghost laws = { books_laws };

    fn books(&self) -> &Books {
        self
    }

    // Inlined, as the crossing is made where the move is known: it is then neither stored nor matched.
    #[inline(always)]
    fn cross(&mut self, crossing: Crossing) {
        match crossing {
            Crossing::Cash {
                giver,
                receiver,
                marks,
            } => {
                let _ = carry(&mut self.cash, giver, receiver, marks);
            }
            Crossing::Papers {
                company,
                giver,
                receiver,
                certificates,
            } => carry_papers(
                &mut self.companies,
                slot(company),
                giver,
                receiver,
                certificates,
            ),
            Crossing::Trains {
                giver,
                receiver,
                load,
            } => {
                let _ = carry(&mut self.trains, giver, receiver, load);
            }
        }
    }
}
