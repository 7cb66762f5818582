// What every rule book answers, and the ranges that its answers stay in.
#![tactic(auto)]

pub mod book;
pub mod funding;
pub mod split;
