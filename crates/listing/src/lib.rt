// A game file as text: a line for each record, to the file's end or its first fault.
#![tactic(auto)]

mod lines;
mod whole;

pub use lines::push_record;
pub use whole::listing;
