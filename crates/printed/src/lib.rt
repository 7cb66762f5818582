// The two printed rule books, read off constant tables.
#![tactic(auto)]

pub mod berg;
mod figures;
pub mod north;
