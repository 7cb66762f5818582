// May a seat or a company be on turn, may a round end, may a seat sell? All found before anything moves.
#![tactic(auto)]

pub mod rounds;
pub mod sale;
