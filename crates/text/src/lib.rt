// Text of a fixed capacity by value, and the lines of a statement.
#![tactic(auto)]

mod appending;
mod lines;
mod reading;
mod refusal;
mod text;
mod words;

pub use refusal::TextRefusal;
pub use text::Text;
pub use words::word_number;
