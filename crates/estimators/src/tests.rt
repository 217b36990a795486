use crate::estimator::Estimator;
use crate::goal_count::GoalCount;
use crate::never::NeverHopeless;
use crate::relaxed::Relaxed;
use std::test::Fail;
use tasks::TableTask;
use tasks::ban::Ban;

// Three facts, all to be true. Action 0 makes the first, action 1 needs that and makes the second, action 2 needs that and makes the third.
fn ladder() -> Result<TableTask, Fail> {
    let needs = [0, 0, 0, 1, 0, 0, 0, 1, 0];
    let makes = [1, 0, 0, 0, 1, 0, 0, 0, 1];
    let start = [-1, -1, -1];
    let goal = [1, 1, 1];
    Ok(TableTask::from_tables(3, 3, &needs, &makes, &start, &goal)?)
}

#[test]
fn three_goals_take_three_actions(rt: HostRuntime) -> Result<(), Fail> {
    let task = ladder()?;
    assert!(rt; GoalCount.hopeless(&task, 0, 2));
    assert!(rt; !GoalCount.hopeless(&task, 0, 3));
    assert!(rt; Relaxed.hopeless(&task, 0, 2));
    assert!(rt; !Relaxed.hopeless(&task, 0, 3));
    assert!(rt; !NeverHopeless.hopeless(&task, 0, 0));
    Ok(())
}

#[test]
fn goals_that_hold_are_never_hopeless(rt: HostRuntime) -> Result<(), Fail> {
    let task = ladder()?;
    assert!(rt; !GoalCount.hopeless(&task, 7, 0));
    assert!(rt; !Relaxed.hopeless(&task, 7, 0));
    assert!(rt; !Relaxed.hopeless(&task, 0xff07, 0));
    Ok(())
}

#[test]
fn a_banned_action_does_not_count(rt: HostRuntime) -> Result<(), Fail> {
    let banned = Ban::new(ladder()?, &[2]).map_err(|_| Fail::new("the ban is refused"))?;
    assert!(rt; GoalCount.hopeless(&banned, 3, 255));
    assert!(rt; Relaxed.hopeless(&banned, 0, 255));
    Ok(())
}
