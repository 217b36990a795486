//! The job that a sheet describes.
ghost use Rattle.std.specs.Prelude.{◌≤◌};

use tasks::TableTask;

/// A task, and the most actions that a plan may have.
#[derive(Clone, Copy)]
pub struct Job {
    pub task: TableTask,
    pub bound: u8,
    ghost few: { bound ≤ 30 },
}
