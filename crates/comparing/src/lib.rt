// Two tables side by side: are they equal in every hand?
#![tactic(auto)]

ghost use Rattle.std.specs.Prelude.{◌≡◌, ℕ, Decides, slice_index_or};
ghost use Rattle.kinds.specs.Papers.{no_papers};
ghost use Rattle.promises.specs.Lives.{EqualHands};

use ledger::books::Books;
use ledger::company::Company;

// Rows are compared as slices, since a proof then reads how long they are.
fn same_papers(one: &Company, other: &Company) -> bool
    ensures { Decides result ((place : ℕ) → slice_index_or one.now.papers place no_papers ≡ slice_index_or other.now.papers place no_papers) }
{
    one.papers[..] == other.papers[..]
}

// In every hand: cash, trains and certificates.
pub fn same_hands(one: &Books, other: &Books) -> bool
    ensures { Decides result (EqualHands one.now other.now) }
{
    one.cash[..] == other.cash[..]
        && one.trains[..] == other.trains[..]
        && one
            .companies
            .iter()
            .zip(&other.companies)
            .all(|(here, there)| same_papers(here, there))
}
