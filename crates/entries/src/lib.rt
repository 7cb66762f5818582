// What the records of a game file are, and what their bytes mean.
#![tactic(auto)]

pub mod record;
