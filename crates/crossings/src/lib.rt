// What crosses in a call, as a list: who gives what to whom, in order.
#![tactic(auto)]

mod trial;
mod whole;

pub use moving::{answer_to, crossing};
pub use whole::crossings_of;
