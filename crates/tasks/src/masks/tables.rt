//! A task read from four tables of signed bytes.
ghost use Rattle.std.specs.Prelude.{◌≡◌, ◌*◌, ◌≤◌, length, MatchBool, nat_lt};
ghost use Rattle.tasks.specs.Tables.{Limits, Long, Ranges, Signs, one, two};
ghost use Rattle.tasks.specs.Tabling.{tables_lawful};

use crate::masks::Masks;
use crate::refusal::Refusal;
use crate::task::Task;

/// A task read from four tables: needs and makes have cell `a * facts + f`, start and goal cell `f`. Every action is
/// usable. It is held as masks.
pub type TableTask = Masks;

impl Masks {
    ghost use Rattle.tasks.specs.Tabled.{Tabled};

    // Stays parameters: this is the signature that callers have, and a struct of the tables would be one more type for them to fill.
    /// Reads the tables. Counts outside their limits, a table too short, and a cell outside its range are refused, in
    /// this order; cells past the counts are ignored.
    pub fn from_tables(
        facts: usize,
        actions: usize,
        needs: &[i8],
        makes: &[i8],
        start: &[i8],
        goal: &[i8],
    ) -> Result<TableTask, Refusal>
        ensures { Tabled facts actions needs.now makes.now start.now goal.now result }
    {
        if !(1..=64).contains(&facts) || actions > 128 {
            return Err(Refusal::Count);
        }
        let cells = actions * facts;
        if needs.len() < cells || makes.len() < cells || start.len() < facts || goal.len() < facts {
            return Err(Refusal::Short);
        }
        if !are_signs(needs, cells, 0)
            || !are_signs(makes, cells, 0)
            || !are_signs(start, facts, 1)
            || !are_signs(goal, facts, 0)
        {
            return Err(Refusal::Cell);
        }
        let tables = Tables {
            facts,
            actions,
            needs,
            makes,
            start,
            goal,
        };
        Ok(Masks::of(&tables))
    }
}

// Tables that are long enough and in range.
#[derive(Clone, Copy)]
struct Tables<'a> {
    facts: usize,
    actions: usize,
    needs: &'a [i8],
    makes: &'a [i8],
    start: &'a [i8],
    goal: &'a [i8],
    ghost limits: { Limits facts actions },
    ghost long: { Long facts actions needs.now makes.now start.now goal.now },
    ghost ranges: { Ranges facts actions needs.now makes.now start.now goal.now },
}

impl Tables<'_> {
    // The cell of fact `f`; 0 past the facts.
    fn one(&self, cells: &[i8], f: usize) -> i8
        requires { self.now.facts ≤ length cells.now }
        ensures { result ≡ one self.now.facts cells.now f }
    {
        if f < self.facts { cells[f] } else { 0 }
    }

    // The cell of action `a` and fact `f`; 0 past the actions and the facts.
    fn two(&self, cells: &[i8], a: usize, f: usize) -> i8
        requires { self.now.actions * self.now.facts ≤ length cells.now }
        ensures { result ≡ two self.now.facts self.now.actions cells.now a f }
    {
        if a < self.actions && f < self.facts {
            cells[a * self.facts + f]
        } else {
            0
        }
    }
}

impl Task for Tables<'_> {
    ghost facts = { λ t. t.facts };

    ghost actions = { λ t. t.actions };

    ghost usable = { λ t a. nat_lt a t.actions };

    ghost needs = { λ t. two t.facts t.actions t.needs.now };

    ghost makes = { λ t. two t.facts t.actions t.makes.now };

    ghost start = { λ t. one t.facts t.start.now };

    ghost goal = { λ t. one t.facts t.goal.now };

    ghost lawful = { λ t. tables_lawful t.facts t.actions t.needs.now t.makes.now t.start.now t.goal.now t.limits t.ranges };

    fn facts(&self) -> usize {
        self.facts
    }

    fn actions(&self) -> usize {
        self.actions
    }

    fn usable(&self, a: usize) -> bool {
        a < self.actions
    }

    fn needs(&self, a: usize, f: usize) -> i8 {
        self.two(self.needs, a, f)
    }

    fn makes(&self, a: usize, f: usize) -> i8 {
        self.two(self.makes, a, f)
    }

    fn start(&self, f: usize) -> i8 {
        self.one(self.start, f)
    }

    fn goal(&self, f: usize) -> i8 {
        self.one(self.goal, f)
    }
}

// Stays a loop over cells with their index: the count says where the table's own cells end, and those past it are ignored.
// Whether the first `count` cells are each 1, -1 or, if `least` is 0, also 0.
fn are_signs(cells: &[i8], count: usize, least: u8) -> bool
    requires { count ≤ length cells.now }
    ensures { MatchBool result (Signs least count cells.now) (Signs least count cells.now → ⊥) }
{
    for (i, cell) in cells.iter().enumerate() {
        if i < count && (cell.unsigned_abs() < least || cell.unsigned_abs() > 1) {
            return false;
        }
    }
    true
}
