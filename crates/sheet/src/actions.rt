//! The names of a sheet's actions.
ghost use Rattle.std.specs.Prelude.{◌≡◌};
ghost use Rattle.sheet.specs.Agree.{Agree};
ghost use Rattle.sheet.specs.Actions.{named, NamesTheAction};

use crate::checked::Checked;
use crate::fault::Fault;

/// The name of an action, as it stands in the sheet. Refused where the sheet is, and where it has no such action.
pub fn action_name(sheet: &[u8], action: usize) -> Result<&[u8], Fault>
    ensures value { Agree (λ name n. n.now ≡ name) (named sheet.now action) result }
    ensures law { NamesTheAction sheet.now action result }
{
    let sheet = Checked::of(sheet).map_err(|_| Fault::Mismatch)?;
    if action < sheet.counts.actions {
        Ok(sheet.name(action))
    } else {
        Err(Fault::Mismatch)
    }
}
