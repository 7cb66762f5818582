// A copy of the books on which a call is tried, and what has crossed there.
ghost use Rattle.std.specs.Prelude.{◌≡◌, [], ◌∷◌, IsOkAnd};
ghost use Rattle.crossings.specs.Noted.{Written, Noted, noted_laws};
ghost use Rattle.moving.specs.Views.{view, listed};

use ledger::books::Books;
use moving::crossing::Crossing;
use moving::moves::Moves;
use std::alloc::{AllocError, Global};

// The list, or that memory did not hold it.
#[derive(Drop)]
pub(crate) struct Trial {
    pub(crate) books: Books,
    pub(crate) crossings: Result<Vec<Crossing>, AllocError>,
}

// Books derive no copy, so that no call makes one.
fn copy_of(books: &Books) -> Books
    ensures { result ≡ books.now }
{
    Books {
        players: books.players,
        cash: books.cash,
        trains: books.trains,
        companies: books.companies,
        round: books.round,
        stock: books.stock,
        operating: books.operating,
    }
}

fn note(crossings: &mut Result<Vec<Crossing>, AllocError>, crossing: Crossing)
    ensures { Written crossings.old (view crossing ∷ []) crossings.new }
{
    if let Ok(list) = crossings {
        if let Err(failed) = list.push(crossing) {
            *crossings = Err(failed.into());
        }
    }
}

impl Trial {
    pub(crate) fn start(heap: Global, books: &Books) -> Trial
        ensures copied { result.books ≡ books.now }
        ensures nothing { IsOkAnd result.crossings (λ v. listed v.items ≡ []) }
    {
        Trial {
            books: copy_of(books),
            crossings: Ok(Vec::new(heap)),
        }
    }
}

impl Moves for Trial {
    ghost books_of = { λ t. t.books };

    ghost Moved = { λ s xs t. Noted s t xs };

    ghost laws = { noted_laws };

    fn books(&self) -> &Books {
        &self.books
    }

    fn cross(&mut self, crossing: Crossing) {
        self.books.cross(crossing);
        note(&mut self.crossings, crossing);
    }
}
