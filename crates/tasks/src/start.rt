//! The start of a task, held as a state.
ghost use Rattle.std.specs.Prelude.{◌≡◌, false};
ghost use Rattle.tasks.specs.Rows.{starts};
ghost use Rattle.tasks.specs.States.{packed, put};

use sets::FactSet;

// What a state says of a fact below `facts`: 1 that it is true, -1 that it is false; 0 past them.
#[tactic(auto, unfolding(sets::specs::Sets::member))]
pub fn value_at(state: u64, facts: usize, f: usize) -> i8
    ensures { result ≡ starts facts state f }
{
    if f >= facts {
        return 0;
    }
    let truths = FactSet { bits: state };
    if truths.contains(f) { 1 } else { -1 }
}

// The state without bits past the facts.
pub fn within(state: u64, facts: usize) -> u64
    ensures { result ≡ packed (λ f. put (starts facts state f) false) facts }
{
    let truths = FactSet { bits: state };
    truths.common(FactSet::below(facts)).bits
}
