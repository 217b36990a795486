//! A task that starts from what was seen.
ghost use Rattle.std.specs.Prelude.{◌≡◌, ℕ, ◌+◌, ◌≤◌, Bool, true, MatchResult, unsigned_abs};
ghost use Rattle.sets.specs.Bits.{bit};
ghost use Rattle.sets.specs.Sets.{has};
ghost use Rattle.sets.specs.Signs.{says};
ghost use Rattle.tasks.specs.Layers.{restarted_lawful};
ghost use Rattle.tasks.specs.Restarted.{Restarted};
ghost use Rattle.tasks.specs.Restarts.{Within, Apart, Fresh, Joined, seen};
ghost use Rattle.tasks.specs.Rows.{starts};

use crate::literal::Literal;
use crate::refusal::Refusal;
use crate::row::Row;
use crate::start;
use crate::task::Task;
use sets::{ActionSet, Literals};

/// A task that starts from what was seen: a listed fact starts as listed, an unlisted one false; all else is as below.
#[derive(Drop)]
pub struct Restart<T> {
    below: T,
    truths: u64,
}

impl<T: Task> Restart<T> {
    /// Starts from the list of literals. Where one is 0 or beyond the facts, or a fact is listed twice, the task is
    /// handed back.
    pub fn new(below: T, literals: &[i8]) -> Result<Restart<T>, (Refusal, T)>
        ensures { Restarted T.Task below literals.now result }
    {
        // Stays a match: either side takes the task, which two closures could not share.
        match gathered(literals, below.facts()) {
            Ok(seen) => Ok(Restart {
                below,
                truths: seen.trues.bits,
            }),
            Err(refusal) => Err((refusal, below)),
        }
    }
}

// Stays a list of answers passed on: the language has no delegation, and the default methods would ask fact by fact.
impl<T: Task> Task for Restart<T> {
    ghost facts = { λ t. T.Task.facts t.below };

    ghost actions = { λ t. T.Task.actions t.below };

    ghost usable = { λ t. T.Task.usable t.below };

    ghost needs = { λ t. T.Task.needs t.below };

    ghost makes = { λ t. T.Task.makes t.below };

    ghost start = { λ t. starts (T.Task.facts t.below) t.truths };

    ghost goal = { λ t. T.Task.goal t.below };

    ghost lawful = { λ t. restarted_lawful (bit t.truths) _ (T.Task.lawful t.below) };

    fn facts(&self) -> usize {
        self.below.facts()
    }

    fn actions(&self) -> usize {
        self.below.actions()
    }

    fn usable(&self, a: usize) -> bool {
        self.below.usable(a)
    }

    fn needs(&self, a: usize, f: usize) -> i8 {
        self.below.needs(a, f)
    }

    fn makes(&self, a: usize, f: usize) -> i8 {
        self.below.makes(a, f)
    }

    fn start(&self, f: usize) -> i8 {
        start::value_at(self.truths, self.below.facts(), f)
    }

    fn goal(&self, f: usize) -> i8 {
        self.below.goal(f)
    }

    fn row(&self, a: usize) -> Row {
        self.below.row(a)
    }

    fn goals(&self) -> Literals {
        self.below.goals()
    }

    fn usable_actions(&self) -> ActionSet {
        self.below.usable_actions()
    }

    fn start_state(&self) -> u64 {
        start::within(self.truths, self.below.facts())
    }
}

// The listed literals as a set, unless one is 0 or beyond the facts, or a fact is listed twice.
fn gathered(numbers: &[i8], facts: usize) -> Result<Literals, Refusal>
    requires { facts ≤ 64 }
    ensures { MatchResult result
        (λ set. Within facts numbers.now × Apart numbers.now × ((f : ℕ) (v : Bool) → has set f v ≡ seen numbers.now f v))
        (λ e. (e ≡ Refusal.Literal) × (Within facts numbers.now × Apart numbers.now → ⊥)) }
{
    let mut set = Literals::none();
    for number in numbers {
        set = joined(set, *number, facts)?;
    }
    Ok(set)
}

// The set with one literal more, unless it is 0 or beyond the facts, or it or its opposite is in the set already.
fn joined(set: Literals, number: i8, facts: usize) -> Result<Literals, Refusal>
    requires { facts ≤ 64 }
    ensures { MatchResult result
        (λ more. Fresh facts set number × Joined set number more)
        (λ e. (e ≡ Refusal.Literal) × (Fresh facts set number → ⊥)) }
{
    let literal = Literal::try_from(number)?;
    if literal.fact() >= facts || is_in(set, literal) || is_in(set, -literal) {
        return Err(Refusal::Literal);
    }
    Ok(set.with(literal.fact(), number))
}

// Whether the literal is in the set.
fn is_in(set: Literals, literal: Literal) -> bool
    ensures { (f : ℕ) → unsigned_abs literal.number ≡ f + 1 → result ≡ has set f (says literal.number true) }
{
    set.contains(literal.fact(), literal.is_true())
}
