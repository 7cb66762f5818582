// Hands that hold things of one kind, and the carry of a load from one hand to another.
#![tactic(auto)]

pub mod carrying;
pub mod fault;
pub mod hand;
pub mod tallied;
pub mod totals;
