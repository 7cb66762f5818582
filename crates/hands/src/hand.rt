// What carry asks of a kind of hand, and nothing more: a kind needs no tallies to be carried.
ghost use Rattle.std.specs.Prelude.{◌≡◌, false};
ghost use Rattle.hands.specs.Kind.{Kind};

pub trait Hand {
    type Load: Copy;

    // The kind's rules: what can be given and taken, and what that leaves.
    ghost kind: { Kind Self Self.Load };

    fn can_give(&self, load: Self::Load) -> bool
        ensures { result ≡ kind.can_give self.now load };

    fn can_take(&self, load: Self::Load) -> bool
        ensures { result ≡ kind.can_take self.now load };

    // A load that cannot be given leaves the hand as it was.
    fn give(&mut self, load: Self::Load)
        ensures { self.new ≡ kind.given self.old load };

    // A load that cannot be taken leaves the hand as it was.
    fn take(&mut self, load: Self::Load)
        ensures { self.new ≡ kind.taken self.old load };

    ghost not_given: { (h : Self) (l : Self.Load) → kind.can_give h l ≡ false → kind.given h l ≡ h };

    ghost not_taken: { (h : Self) (l : Self.Load) → kind.can_take h l ≡ false → kind.taken h l ≡ h };
}
