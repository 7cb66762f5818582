// The opening cash of a table, dealt by carry from the bank to each seat.
#![tactic(auto)]

pub mod deal;
pub mod listing;
pub mod opening;
pub mod refusal;
