// The books of a table, and the rules of its calls as definitions.
#![tactic(auto)]

pub mod books;
pub mod call;
pub mod certificates;
pub mod company;
mod noting;
pub mod reading;
