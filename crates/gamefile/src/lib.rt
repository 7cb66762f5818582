// Reading the records of a game file, one by one or all of them, and writing a record into a lent buffer.
#![tactic(auto)]

pub mod reading;
pub mod records;
pub mod writing;
