//! A sheet that is accepted.
ghost use Rattle.std.specs.Prelude.{◌≡◌, Ok};
ghost use Rattle.sheet.specs.Actions.{counts_of};

use crate::counts::Counts;
use crate::lines::Lines;
use crate::names::second;
use crate::refusal::Refusal;
use crate::tables::Tables;
use crate::whole::{read_into, sized};

/// A sheet that is accepted, with its counts.
#[derive(Clone, Copy)]
pub struct Checked<'a> {
    /// The bytes of the sheet.
    pub sheet: &'a [u8],
    /// The counts that its first line says.
    pub counts: Counts,
    ghost accepted: { counts_of sheet.now ≡ Ok counts },
}

impl<'a> Checked<'a> {
    ghost use Rattle.std.specs.Prelude.{◌≡◌, ◌<◌, ◌≤◌, length, Ok};
    ghost use Rattle.sheet.specs.Agree.{Agree};
    ghost use Rattle.sheet.specs.Actions.{action_name, checked, named};

    /// Reads a sheet for its counts alone.
    pub fn of(sheet: &'a [u8]) -> Result<Checked<'a>, Refusal>
        ensures { Agree (λ x s. (s.sheet.now ≡ sheet.now) × (s.counts ≡ x.counts)) (checked sheet.now) result }
    {
        sized(sheet)?;
        let counts = read_into(sheet, &mut Tables::new())?;
        Ok(Checked { sheet, counts })
    }

    /// The name of an action.
    pub fn name(self, action: usize) -> &'a [u8]
        requires { action < self.counts.actions }
        ensures value { result.now ≡ action_name self.entry.sheet.now self.entry.counts.facts action }
        ensures named { named self.entry.sheet.now action ≡ Ok result.now }
        ensures within { length result.now ≤ 24 }
    {
        let line = Lines::of(self.sheet).nth(1 + self.counts.facts + action);
        second(line.unwrap_or(b""))
    }
}
