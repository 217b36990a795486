//! Reading a sheet as a job.
ghost use Rattle.planner.specs.Jobs.{ReadAs};

use crate::job::Job;
use sheet::read::read;
use sheet::refusal::Refusal;
use tasks::TableTask;

/// Reads a sheet. A sheet that reads always describes a task.
pub fn read_job(sheet: &[u8]) -> Result<Job, Refusal>
    ensures value { ReadAs sheet.now result }
{
    let mut needs = [0i8; 8192];
    let mut makes = [0i8; 8192];
    let mut start = [0i8; 64];
    let mut goal = [0i8; 64];
    let counts = read(sheet, &mut needs, &mut makes, &mut start, &mut goal)?;
    let task = TableTask::from_tables(
        counts.facts,
        counts.actions,
        &needs,
        &makes,
        &start,
        &goal,
    ).unwrap();
    Ok(Job {
        task,
        bound: counts.bound as u8,
    })
}
