//! Sets of literals.
#![tactic(auto, unfolding(crate::specs::Sets::has))]

ghost use Rattle.std.specs.Prelude.{◌≡◌, ℕ, min, Bool, true, false, not, ◌&&◌, ◌||◌, Decides, ◌==◌, nat_lt};
ghost use Rattle.sets.specs.Bits.{bit};
ghost use Rattle.sets.specs.Signs.{says, is};
ghost use Rattle.sets.specs.Sets.{has, holds};

use crate::bit_sets::FactSet;

/// A set of literals over facts that are numbered below 64: fact f is in `trues` where the literal that it is true is in the
/// set, and in `falses` where the literal that it is false is.
#[derive(Clone, Copy, PartialEq, Eq, Debug)]
pub struct Literals {
    pub trues: FactSet,
    pub falses: FactSet,
}

/// Making sets.
impl Literals {
    /// The set with nothing in it.
    pub fn none() -> Literals
        ensures value { (f : ℕ) (v : Bool) → has result f v ≡ false }
    {
        Literals {
            trues: FactSet::none(),
            falses: FactSet::none(),
        }
    }

    /// Both values of each fact below `facts`.
    pub fn all(facts: usize) -> Literals
        ensures value { (f : ℕ) (v : Bool) → has result f v ≡ nat_lt f (min facts 64) }
    {
        let set = FactSet::below(facts);
        Literals {
            trues: set,
            falses: set,
        }
    }

    /// The values that the facts below `facts` have in a state.
    pub fn of_state(state: u64, facts: usize) -> Literals
        ensures value { (f : ℕ) (v : Bool) → has result f v ≡ (nat_lt f (min facts 64) && is v (bit state f)) }
    {
        let set = FactSet::below(facts);
        let trues = FactSet { bits: state };
        Literals {
            trues: set.common(trues),
            falses: set.without(trues),
        }
    }

    /// This set and the literal that `value` says of fact `f`: positive true, negative false. For 0, and for a fact from
    /// 64 on, this set.
    pub fn with(self, f: usize, value: i8) -> Literals
        ensures value { (g : ℕ) (v : Bool) → has result g v ≡ (has self g v || ((nat_lt f 64 && g == f) && says «value» v)) }
    {
        if value > 0 {
            Literals {
                trues: self.trues.with(f),
                falses: self.falses,
            }
        } else if value < 0 {
            Literals {
                trues: self.trues,
                falses: self.falses.with(f),
            }
        } else {
            self
        }
    }
}

/// Combining sets.
impl Literals {
    /// What is in either set.
    pub fn union(self, other: Literals) -> Literals
        ensures value { (f : ℕ) (v : Bool) → has result f v ≡ (has self f v || has other f v) }
    {
        Literals {
            trues: self.trues.union(other.trues),
            falses: self.falses.union(other.falses),
        }
    }

    /// What is in both sets.
    pub fn common(self, other: Literals) -> Literals
        ensures value { (f : ℕ) (v : Bool) → has result f v ≡ (has self f v && has other f v) }
    {
        Literals {
            trues: self.trues.common(other.trues),
            falses: self.falses.common(other.falses),
        }
    }

    /// What is in this set and not in the other.
    pub fn without(self, other: Literals) -> Literals
        ensures value { (f : ℕ) (v : Bool) → has result f v ≡ (has self f v && not (has other f v)) }
    {
        Literals {
            trues: self.trues.without(other.trues),
            falses: self.falses.without(other.falses),
        }
    }

    /// The opposite of each literal of this set.
    pub fn opposites(self) -> Literals
        ensures value { (f : ℕ) (v : Bool) → has result f v ≡ has self f (not v) }
    {
        Literals {
            trues: self.falses,
            falses: self.trues,
        }
    }
}

/// Asking.
impl Literals {
    /// Whether the literal of fact `f` with the value `value` is in the set.
    pub fn contains(self, f: usize, value: bool) -> bool
        ensures value { result ≡ has self f «value» }
    {
        if value {
            self.trues.contains(f)
        } else {
            self.falses.contains(f)
        }
    }

    /// Whether nothing is in the set.
    pub fn is_empty(self) -> bool
        ensures value { Decides result ((f : ℕ) (v : Bool) → has self f v ≡ false) }
    {
        self.trues.is_empty() && self.falses.is_empty()
    }

    /// Whether each fact that has a value in `all` has one here.
    pub fn covers(self, all: Literals) -> bool
        ensures value { Decides result ((f : ℕ) (v : Bool) → has all f v ≡ true → (has self f v || has self f (not v)) ≡ true) }
    {
        all.without(self).without(self.opposites()).is_empty()
    }

    /// The facts that have both values in the set.
    pub fn undecided(self) -> FactSet
        ensures value { (f : ℕ) → holds result f ≡ (has self f true && has self f false) }
    {
        self.trues.common(self.falses)
    }
}
