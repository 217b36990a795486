//! The rounds of a search.
ghost use Rattle.std.specs.Prelude.{◌≡◌, ◌+◌, ◌<◌, ◌≤◌, MatchOption};

/// The round that a search is in, which looks for plans of so many actions, and the bound, its last round.
#[derive(Clone, Copy)]
pub struct Rounds {
    pub round: u8,
    pub bound: u8,
    ghost within: { round ≤ bound },
    ghost small: { bound ≤ 30 },
}

impl Rounds {
    // The next round; none after the last.
    pub fn next(self) -> Option<Rounds>
        ensures { MatchOption result (self.round ≡ self.bound) (λ r. (self.round < self.bound) × (r.round ≡ self.round + 1) × (r.bound ≡ self.bound)) }
    {
        if self.round == self.bound {
            return None;
        }
        Some(Rounds {
            round: self.round + 1,
            bound: self.bound,
        })
    }
}
