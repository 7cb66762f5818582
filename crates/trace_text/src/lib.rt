// A game told line by line: what crosses, and why a record is refused.
#![tactic(auto)]

mod lines;
mod places;
mod refusals;

pub use lines::push_crossing;
pub use refusals::push_refusal;
