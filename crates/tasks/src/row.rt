//! What one action needs and makes, as sets of literals.
ghost use Rattle.std.specs.Prelude.{◌≡◌, ℕ, Bool, false};
ghost use Rattle.sets.specs.Sets.{has};

use sets::Literals;

/// What one action needs and makes: two sets of literals.
#[derive(Clone, Copy, PartialEq, Eq, Debug)]
pub struct Row {
    pub needs: Literals,
    pub makes: Literals,
}

impl Row {
    /// An action that needs and makes nothing.
    pub fn none() -> Row
        ensures needs { (f : ℕ) (v : Bool) → has result.needs f v ≡ false }
        ensures makes { (f : ℕ) (v : Bool) → has result.makes f v ≡ false }
    {
        Row {
            needs: Literals::none(),
            makes: Literals::none(),
        }
    }
}
