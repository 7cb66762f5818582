// A game file followed record by record, as text.
#![tactic(auto)]

mod crossed;
mod steps;
mod whole;

pub use whole::trace;
