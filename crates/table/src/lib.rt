// The table: its cards, open, the nine calls, and the comparison of lives.
#![tactic(auto)]

mod calls;
pub mod cards;
pub mod life;
mod payout;
mod purchase;
mod rounds;
mod sale;
pub mod table;
