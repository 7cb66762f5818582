// Replay: the records of a game file as calls of a table.
#![tactic(auto)]

pub mod card;
pub mod game;
mod opening;
pub mod playing;
pub mod records;
mod whole;

pub use whole::replay;
