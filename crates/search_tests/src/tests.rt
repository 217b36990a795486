//! Bake and copy: facts dry, threaded, copied; actions bake 0, thread 1, copy 2, unthread 3.
use estimators::goal_count::GoalCount;
use memories::list::ListMemory;
use search::answer::Answer;
use search::call::Call;
use search::play::{Unplayed, play};
use search::record::Search;
use search::refusal::Refusal;
use search::verdict::Verdict;
use std::test::Fail;
use tasks::TableTask;

fn baking() -> Result<TableTask, Fail> {
    let needs = [0, -1, 0, 0, -1, 0, 1, 1, 0, 0, 1, 0];
    let makes = [1, 0, 0, 0, 1, 0, 0, 0, 1, 0, -1, 0];
    let task = TableTask::from_tables(3, 4, &needs, &makes, &[-1, -1, -1], &[0, -1, 1])?;
    Ok(task)
}

#[test]
fn twelve_steps_find_the_copy(rt: HostRuntime) -> Result<(), Fail> {
    let task = baking()?;
    let mut memory = ListMemory::new();
    let mut search = Search::new(rt.alloc())?;
    assert_eq!(rt; search.open(&task, &mut memory, 4), Ok(()));
    assert_eq!(rt; search.advance(&task, &mut memory, &GoalCount, 11), Ok(11));
    assert_eq!(rt; search.verdict(), Verdict::Unfinished);
    assert_eq!(rt;
        search.advance(&task, &mut memory, &GoalCount, 1_000_000),
        Ok(1)
    );
    assert_eq!(rt; search.verdict(), Verdict::Found(4));
    let mut plan = [9; 5];
    assert_eq!(rt; search.plan(&mut plan[0..3]), Err(Refusal::Buffer));
    assert_eq!(rt; search.plan(&mut plan), Ok(4));
    assert!(rt; plan == [0, 1, 2, 3, 9]);
    Ok(())
}

#[test]
fn a_lift_goes_on_after_none(rt: HostRuntime) -> Result<(), Fail> {
    let task = baking()?;
    let mut memory = ListMemory::new();
    let mut search = Search::new(rt.alloc())?;
    assert_eq!(rt; search.open(&task, &mut memory, 3), Ok(()));
    assert_eq!(rt; search.lift(&task, 4), Err(Refusal::NotNone));
    assert_eq!(rt; search.advance(&task, &mut memory, &GoalCount, 100), Ok(6));
    assert_eq!(rt; search.verdict(), Verdict::None(3));
    assert_eq!(rt; search.lift(&task, 3), Err(Refusal::Bound));
    assert_eq!(rt; search.lift(&task, 4), Ok(()));
    assert_eq!(rt; search.advance(&task, &mut memory, &GoalCount, 100), Ok(6));
    assert_eq!(rt; search.verdict(), Verdict::Found(4));
    Ok(())
}

#[test]
fn refusals_at_their_edges(rt: HostRuntime) -> Result<(), Fail> {
    let task = baking()?;
    let mut memory = ListMemory::new();
    let mut search = Search::new(rt.alloc())?;
    assert_eq!(rt;
        search.advance(&task, &mut memory, &GoalCount, 1),
        Err(Refusal::Blank)
    );
    assert_eq!(rt; search.open(&task, &mut memory, 31), Err(Refusal::Bound));
    assert_eq!(rt; search.verdict(), Verdict::Blank);
    assert_eq!(rt; search.open(&task, &mut memory, 30), Ok(()));
    assert_eq!(rt;
        search.advance(&task, &mut memory, &GoalCount, 0),
        Err(Refusal::Amount)
    );
    assert_eq!(rt;
        search.advance(&task, &mut memory, &GoalCount, 1_000_001),
        Err(Refusal::Amount)
    );
    assert_eq!(rt; search.advance(&task, &mut memory, &GoalCount, 1), Ok(1));
    Ok(())
}

#[test]
fn a_list_of_calls_is_played(rt: HostRuntime) -> Result<(), Fail> {
    let task = baking()?;
    let mut memory = ListMemory::new();
    let mut search = Search::new(rt.alloc())?;
    let calls = [
        Call::Plan(4),
        Call::Open(3),
        Call::Advance(6),
        Call::Verdict,
        Call::Lift(4),
        Call::Advance(100),
        Call::Plan(3),
        Call::Plan(4),
    ];
    let played = play(
        rt.alloc(),
        &mut search,
        &task,
        &mut memory,
        &GoalCount,
        &calls,
    )?;
    assert_eq!(rt; played.answers[0], Err(Refusal::Blank));
    assert_eq!(rt; played.answers[1], Ok(Answer::Done));
    assert_eq!(rt; played.answers[2], Ok(Answer::Made(6)));
    assert_eq!(rt; played.answers[3], Ok(Answer::Stands(Verdict::None(3))));
    assert_eq!(rt; played.answers[4], Ok(Answer::Done));
    assert_eq!(rt; played.answers[5], Ok(Answer::Made(6)));
    assert_eq!(rt; played.answers[6], Err(Refusal::Buffer));
    assert_eq!(rt; played.answers[7], Ok(Answer::Wrote(4)));
    assert_eq!(rt; played.verdict, Verdict::Found(4));
    assert!(rt; played.plan.as_slice() == [0, 1, 2, 3].as_slice());
    Ok(())
}

#[test]
fn only_a_blank_search_is_played(rt: HostRuntime) -> Result<(), Fail> {
    let task = baking()?;
    let mut memory = ListMemory::new();
    let mut search = Search::new(rt.alloc())?;
    assert_eq!(rt; search.open(&task, &mut memory, 4), Ok(()));
    let calls = [Call::Open(3)];
    let played = play(
        rt.alloc(),
        &mut search,
        &task,
        &mut memory,
        &GoalCount,
        &calls,
    );
    assert_eq!(rt; played.err(), Some(Unplayed::NotBlank));
    assert_eq!(rt; search.advance(&task, &mut memory, &GoalCount, 100), Ok(12));
    Ok(())
}
