// Hands that tell, for each tag of their kind, how much they hold.
ghost use Rattle.std.specs.Prelude.{◌≡◌, ℕ, true};
ghost use Rattle.hands.specs.Tallies.{Tallies, TallyLaws, EitherOrder, BackAgain};

use crate::hand::Hand;

pub trait Tallied: Hand {
    const CEILING: u32;

    ghost CEILING: { ℕ };

    // What the kind's tags, tallies, floors and loads are.
    ghost tallies: { Tallies Self Self.Load };

    // How much of a tag the hand holds: 0 for a tag outside the kind.
    fn tally(&self, tag: u8) -> i32
        ensures { result ≡ tallies.tally self.now tag };

    ghost ceiling_is: { CEILING ≡ tallies.ceiling };

    ghost lawful: { TallyLaws Self.Hand.kind tallies };

    // Two loads that can be taken one after the other leave the same hand in either order.
    ghost either_order: { (h : Self) (l m : Self.Load) → Self.Hand.kind.can_take h l ≡ true → Self.Hand.kind.can_take (Self.Hand.kind.taken h l) m ≡ true → EitherOrder Self.Hand.kind h l m };

    // A load taken, then given, leaves the hand as it was.
    ghost back_again: { (h : Self) (l : Self.Load) → Self.Hand.kind.can_take h l ≡ true → BackAgain Self.Hand.kind h l };
}
