//! The four tables of a sheet.
ghost use Rattle.std.specs.Prelude.{◌≡◌, ◌≤◌, ◌++◌, length, drop};

use crate::bodies::{acts, end, row, start_row};
use crate::counts::Counts;
use crate::lines::Lines;
use crate::refusal::Refusal;
use crate::word::Head;

/// Room for the cells of any sheet: 1 true, -1 false, 0 not named.
#[derive(Drop)]
pub struct Tables {
    /// What each action needs, a row of as many cells as there are facts to an action.
    pub needs: [i8; 8192],
    /// What each action makes, row by row in the same way.
    pub makes: [i8; 8192],
    /// The facts at first.
    pub start: [i8; 64],
    /// The facts at last.
    pub goal: [i8; 64],
}

impl Tables {
    ghost use Rattle.std.specs.Prelude.{◌≡◌, ◌+◌, pos, replicate};
    ghost use Rattle.sheet.specs.Agree.{Agree};
    ghost use Rattle.sheet.specs.Readers.{to_come};
    ghost use Rattle.sheet.specs.Lines.{tail};
    ghost use Rattle.sheet.specs.Counting.{Limits};
    ghost use Rattle.sheet.specs.Sheet.{bodies};
    ghost use Rattle.sheet.specs.Laid.{cells_of, laid};

    /// Tables in which no fact is named.
    pub fn new() -> Tables
        ensures { cells_of result ≡ record {
          needs = replicate 8192 (pos 0);
          makes = replicate 8192 (pos 0);
          start = replicate 64 (pos 0);
          goal = replicate 64 (pos 0);
        } }
    {
        Tables {
            needs: [0; 8192],
            makes: [0; 8192],
            start: [0; 64],
            goal: [0; 64],
        }
    }

    /// Reads the lines of literals and the end of the sheet; the cells past its counts stay.
    pub fn read_bodies(
        &mut self,
        mut lines: Lines,
        sheet: &[u8],
        counts: Counts,
    ) -> Result<(), Refusal>
        requires { Limits counts }
        ensures { Agree (λ t _. cells_of self.new ≡ laid t (cells_of self.old))
            (bodies counts (3 + counts.facts + counts.actions) (to_come lines.entry) (tail sheet.now)) result }
    {
        let facts = counts.facts;
        let line = 3 + facts + counts.actions;
        start_row(&mut lines, line, &mut self.start[..facts])?;
        row(&mut lines, Head::Goal, line + 1, &mut self.goal[..facts])?;
        acts(
            &mut lines,
            facts,
            counts.actions,
            line + 2,
            &mut self.needs,
            &mut self.makes,
        )?;
        end(lines, sheet, line + 2 + 2 * counts.actions)
    }
}

/// Copies cells to the front of a table.
pub fn copy<const N: usize>(cells: &[i8; N], table: &mut [i8])
    requires { N ≤ length table.old }
    ensures { table.new ≡ cells.now ++ drop N table.old }
{
    table[..N].copy_from_slice(cells);
}
