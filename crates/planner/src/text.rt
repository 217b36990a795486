//! The text that is printed of a sheet.
ghost use Rattle.std.specs.Prelude.{◌≤◌, IfOk};
ghost use Rattle.planner.specs.Planned.{Planned, size};

use crate::judge::judge;
use crate::read::read_job;
use crate::told::{Told, Untold};
use estimators::goal_count::GoalCount;
use memories::list::ListMemory;
use sheet::refused::write_refusal;
use sheet::report::report;
use std::alloc::Global;

/// Writes what is printed of a sheet to the front of the buffer: `refused N line L` where the sheet is refused; else
/// `found N` and the names of a shortest plan's actions, one a line, or `none K` where no plan of up to K actions, the
/// sheet's bound, exists, or `unfinished`. Nothing is written where the buffer has fewer than 800 bytes or there is no
/// room for a search.
// Stays a buffer of the caller's: callers have this signature, as they have those of `report` and `write_refusal`, and the bytes are theirs.
pub fn plan_text(heap: Global, sheet: &[u8], buffer: &mut [u8]) -> Result<Told, Untold>
    ensures value { Planned sheet.now buffer.old buffer.new result }
    ensures within { IfOk result (λ told. size told ≤ 800) }
{
    match read_job(sheet) {
        Ok(job) => {
            let outcome = judge(heap, &job, &mut ListMemory::new(), &GoalCount)?;
            let n = report(sheet, outcome.verdict, outcome.plan.as_slice(), buffer).map_err(
                |_| Untold::BufferTooShort,
            )?;
            Ok(Told::Report(n))
        }
        Err(refusal) => {
            let n = write_refusal(refusal, buffer).map_err(|_| Untold::BufferTooShort)?;
            Ok(Told::Refusal(n))
        }
    }
}
