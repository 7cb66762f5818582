// What the calls move, the same code for the books that a call is made on and for a copy that is noted on.
#![tactic(auto)]

mod answer;
pub mod crossing;
mod director;
pub mod moves;
pub mod payout;
pub mod purchase;
pub mod sale;
pub mod train;

pub use answer::answer_to;
