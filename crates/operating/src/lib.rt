// The calls of a company on turn: which refusal applies first, and what a granted call is worth.
#![tactic(auto)]

pub mod payout;
pub mod train;
pub mod turn;
