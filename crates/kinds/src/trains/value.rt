ghost use Rattle.std.specs.Prelude.{◌≡◌, replicate, slice_index};

use super::Trains;

impl Trains {
    pub fn none() -> Trains
        ensures { result.counts ≡ replicate 8 0 }
    {
        Trains { counts: [0; 8] }
    }

    pub fn new(counts: [u8; 8]) -> Trains
        ensures { result.counts ≡ counts }
    {
        Trains { counts }
    }

    // How many of a kind: none of a kind above 7.
    pub fn count(&self, kind: u8) -> u8
        ensures { result ≡ slice_index self.now.counts kind }
    {
        self.counts.get(usize::from(kind)).copied().unwrap_or(0)
    }
}
