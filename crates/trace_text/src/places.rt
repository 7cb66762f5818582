// The places of the rows by name.
ghost use Rattle.std.specs.Prelude.{◌≡◌, Some};
ghost use Rattle.trace_text.specs.Places.{place_words, cash_place, paper_place, train_place};

use std::fmt;

#[derive(Clone, Copy)]
pub(crate) enum Place {
    Bank,
    Offering,
    Pool,
    Stack,
    Seat(usize),
    Company(usize),
}

impl fmt::Display for Place {
    ghost output = { λ p. Some (place_words p) };

    fn fmt<W: fmt::Write>(&self, f: &mut fmt::Formatter<W>) -> fmt::Result {
        match *self {
            Place::Bank => write!(f, "bank"),
            Place::Offering => write!(f, "offering"),
            Place::Pool => write!(f, "pool"),
            Place::Stack => write!(f, "stack"),
            Place::Seat(seat) => write!(f, "seat {seat}"),
            Place::Company(company) => write!(f, "company {company}"),
        }
    }
}

pub(crate) fn cash_place_at(players: u8, place: usize) -> Place
    ensures { result ≡ cash_place players place }
{
    let seats = usize::from(players);
    match place {
        0 => Place::Bank,
        seat if seat <= seats => Place::Seat(seat),
        _ => Place::Company(place - seats),
    }
}

pub(crate) fn paper_place_at(place: usize) -> Place
    ensures { result ≡ paper_place place }
{
    match place {
        0 => Place::Offering,
        1 => Place::Pool,
        _ => Place::Seat(place - 1),
    }
}

pub(crate) fn train_place_at(place: usize) -> Place
    ensures { result ≡ train_place place }
{
    match place {
        0 => Place::Stack,
        _ => Place::Company(place),
    }
}
