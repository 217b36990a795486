use super::budget::OutOfBudget;
use super::plan::shortest_plan;
use std::process::Abort;
use tasks::TableTask;

// A tape is baked, threaded, copied and unthreaded: facts dry, threaded, copied.
fn copying(rt: &impl Abort, budget: u64, plan: &mut [u8]) -> Result<Option<usize>, OutOfBudget> {
    let needs = [0, -1, 0, 0, -1, 0, 1, 1, 0, 0, 1, 0];
    let makes = [1, 0, 0, 0, 1, 0, 0, 0, 1, 0, -1, 0];
    let task = TableTask::from_tables(3, 4, &needs, &makes, &[-1, -1, -1], &[0, -1, 1]).expect(
        rt,
        "a task of copying a tape",
    );
    shortest_plan(&task, budget, plan)
}

#[test]
fn four_actions_copy_a_tape(rt: HostRuntime) {
    let mut plan = [9; 4];
    assert_eq!(rt; copying(&rt, 1000, &mut plan), Ok(Some(4)));
    assert_eq!(rt; plan, [0, 1, 2, 3]);
}

#[test]
fn three_do_not(rt: HostRuntime) {
    let mut plan = [9; 3];
    assert_eq!(rt; copying(&rt, 1000, &mut plan), Ok(None));
    assert_eq!(rt; plan, [9, 9, 9]);
}

#[test]
fn one_sequence_is_too_few(rt: HostRuntime) {
    let mut plan = [9; 4];
    assert_eq!(rt; copying(&rt, 1, &mut plan), Err(OutOfBudget));
}
