// The three kinds of hand that a table keeps: cash, the papers of a company, and trains.
#![tactic(auto)]

pub mod cash;
pub mod cash_floor;
pub mod certificate_set;
pub mod papers;
pub mod train_load;
pub mod trains;
