// A card has the number of the round that it was handed out for. The two are types with names of their own, since one type
// over the number 0 or 1 would say less, also in the compiler's error where the wrong card is played.
pub mod operating_card;
pub mod stock_card;

pub use operating_card::OperatingCard;
pub use stock_card::StockCard;
