ghost use Rattle.std.specs.Prelude.{◌≡◌, [], map};
ghost use Rattle.text.specs.Text.{shown, added};
ghost use Rattle.dealing.specs.Opening.{hand_view, opened};
ghost use Rattle.dealing.specs.Listing.{listed, opening_text};

use crate::deal::open_printed;
use crate::opening::Opening;
use text::Text;

impl Opening {
    // The bank's line and a line for each player. Nobody holds a certificate yet.
    fn lines(&self) -> Text
        ensures { shown result ≡ added [] (listed self.now.players (map hand_view self.now.cash)) }
    {
        let mut text = Text::empty();
        text.push_bank_line(self.cash[0].marks());
        for seat in 1..=self.players {
            text.push_seat_line(seat, self.cash[usize::from(seat)].marks(), 0);
        }
        text
    }
}

// What is printed for the opening cash of a printed book.
pub fn opening_text(book: u32, players: u32) -> Text
    ensures { shown result ≡ opening_text (opened book players) }
{
    match open_printed(book, players) {
        Ok(opening) => opening.lines(),
        Err(refusal) => {
            let mut text = Text::empty();
            text.push_refused_line(refusal.number());
            text
        }
    }
}
