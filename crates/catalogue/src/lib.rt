// The printed rule books as values of one type, each known by its number.
#![tactic(auto)]

pub mod books;
