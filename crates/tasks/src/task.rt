//! A task is an interface: every question leaves the task unchanged and answers its meaning.
ghost use Rattle.std.specs.Prelude.{◌≡◌, ℕ, ◌≤◌, Bool, ℤ};
ghost use Rattle.sets.specs.Sets.{among};
ghost use Rattle.tasks.specs.Meaning.{Lawful, bundle};
ghost use Rattle.tasks.specs.Rows.{Answers, Names, NamesBelow};
ghost use Rattle.tasks.specs.States.{start_state};

use crate::row::Row;
use sets::{ActionSet, Literals};

/// A task. Facts and actions are numbered from 0; a number past them is answered 0, or not usable.
pub trait Task {
    ghost facts: { Self → ℕ };

    ghost actions: { Self → ℕ };

    ghost usable: { Self → ℕ → Bool };

    ghost needs: { Self → ℕ → ℕ → ℤ };

    ghost makes: { Self → ℕ → ℕ → ℤ };

    ghost start: { Self → ℕ → ℤ };

    ghost goal: { Self → ℕ → ℤ };

    /// The number of facts, 1 to 64.
    fn facts(&self) -> usize
        ensures { result ≡ facts self.now };

    /// The number of actions, 0 to 128.
    fn actions(&self) -> usize
        ensures { result ≡ actions self.now };

    /// Whether action `a` may be used.
    fn usable(&self, a: usize) -> bool
        ensures { result ≡ usable self.now a };

    /// Whether action `a` needs fact `f` true (1), false (-1) or either (0).
    fn needs(&self, a: usize, f: usize) -> i8
        ensures { result ≡ needs self.now a f };

    /// Whether action `a` makes fact `f` true (1), false (-1) or leaves it (0).
    fn makes(&self, a: usize, f: usize) -> i8
        ensures { result ≡ makes self.now a f };

    /// Whether fact `f` starts true (1) or false (-1).
    fn start(&self, f: usize) -> i8
        ensures { result ≡ start self.now f };

    /// Whether fact `f` is to be true (1), false (-1) or either (0) in the end.
    fn goal(&self, f: usize) -> i8
        ensures { result ≡ goal self.now f };

    /// All that action `a` needs and makes.
    fn row(&self, a: usize) -> Row
        ensures needs { Names (needs self.now a) result.needs }
        ensures makes { Names (makes self.now a) result.makes }
    {
        let facts = self.facts();
        Row {
            needs: literals_by(facts, |f| self.needs(a, f)),
            makes: literals_by(facts, |f| self.makes(a, f)),
        }
    }

    /// All the goals.
    fn goals(&self) -> Literals
        ensures { Names (goal self.now) result }
    {
        literals_by(self.facts(), |f| self.goal(f))
    }

    /// All usable actions.
    fn usable_actions(&self) -> ActionSet
        ensures { (a : ℕ) → among result a ≡ usable self.now a }
    {
        let mut usable = ActionSet::none();
        for a in 0..self.actions() {
            if self.usable(a) {
                usable = usable.with(a);
            }
        }
        usable
    }

    /// The state that the task starts in.
    fn start_state(&self) -> u64
        ensures { result ≡ start_state (bundle facts actions usable needs makes start goal self.now) }
    {
        literals_by(self.facts(), |f| self.start(f)).trues.bits
    }

    ghost lawful: { (t : Self) → Lawful (bundle facts actions usable needs makes start goal t) };
}

// The literals that the numbers of the facts below `facts` say.
fn literals_by<F: Fn(usize) -> i8>(facts: usize, number: F) -> Literals
    requires few { facts ≤ 64 }
    requires callable { F.IsAlwaysCallable number }
    ensures { (numbers : ℕ → ℤ) → Answers (F.post number) facts numbers → NamesBelow facts numbers result }
{
    let mut set = Literals::none();
    for f in 0..facts {
        set = set.with(f, number(f));
    }
    set
}
