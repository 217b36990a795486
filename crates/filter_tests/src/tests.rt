//! Each rule alone removes something; strays; the smallest and the largest round; refusals.
use filter::{BoundedPart, Outcome, Part, Refusal, StageSet, filter, filter_from};
use sets::{ActionSet, Literals};
use std::process::Abort;
use std::test::Fail;
use tasks::masks::Masks;

// The values of one fact.
fn only_true() -> Literals {
    Literals::none().with(0, 1)
}

fn only_false() -> Literals {
    Literals::none().with(0, -1)
}

fn either() -> Literals {
    Literals::all(1)
}

// A part of one step, between two levels.
fn one_step(before: Literals, left: ActionSet, after: Literals) -> Part {
    let mut part = Part {
        round: 1,
        steps: [ActionSet::below(2); 30],
        levels: [Literals::none(); 31],
    };
    part.levels[0] = before;
    part.steps[0] = left;
    part.levels[1] = after;
    part
}

// Filters a part of one step of a task with one fact and two actions, and checks what is left of it.
fn leaves(
    rt: &impl Abort,
    needs: &[i8],
    makes: &[i8],
    mut part: Part,
    left: Part,
) -> Result<(), Fail> {
    let task = Masks::from_tables(1, 2, needs, makes, &[-1], &[0])?;
    assert_eq!(rt; filter(&task, &mut part)?, Outcome::Kept);
    assert_eq!(rt; part, left);
    Ok(())
}

#[test]
fn neither_possible_before_nor_made(rt: HostRuntime) -> Result<(), Fail> {
    leaves(
        &rt,
        &[0, 0],
        &[0, 0],
        one_step(only_true(), ActionSet::below(2), either()),
        one_step(only_true(), ActionSet::below(2), only_true()),
    )
}

#[test]
fn opposite_always_made(rt: HostRuntime) -> Result<(), Fail> {
    leaves(
        &rt,
        &[0, 0],
        &[1, 1],
        one_step(either(), ActionSet::below(2), either()),
        one_step(either(), ActionSet::below(2), only_true()),
    )
}

#[test]
fn neither_possible_after_nor_undone(rt: HostRuntime) -> Result<(), Fail> {
    leaves(
        &rt,
        &[0, 0],
        &[0, 0],
        one_step(either(), ActionSet::below(2), only_true()),
        one_step(only_true(), ActionSet::below(2), only_true()),
    )
}

#[test]
fn opposite_always_needed(rt: HostRuntime) -> Result<(), Fail> {
    leaves(
        &rt,
        &[1, 1],
        &[-1, -1],
        one_step(either(), ActionSet::below(2), only_false()),
        one_step(only_true(), ActionSet::below(2), only_false()),
    )
}

#[test]
fn needs_the_impossible(rt: HostRuntime) -> Result<(), Fail> {
    leaves(
        &rt,
        &[1, 0],
        &[0, 0],
        one_step(only_false(), ActionSet::below(2), only_false()),
        one_step(only_false(), ActionSet::none().with(1), only_false()),
    )
}

#[test]
fn makes_the_impossible(rt: HostRuntime) -> Result<(), Fail> {
    leaves(
        &rt,
        &[0, 0],
        &[1, 0],
        one_step(only_false(), ActionSet::below(2), only_false()),
        one_step(only_false(), ActionSet::none().with(1), only_false()),
    )
}

#[test]
fn misses_a_required_change(rt: HostRuntime) -> Result<(), Fail> {
    leaves(
        &rt,
        &[0, 0],
        &[1, 0],
        one_step(only_false(), ActionSet::below(2), only_true()),
        one_step(only_false(), ActionSet::below(1), only_true()),
    )
}

#[test]
fn strays_are_dropped(rt: HostRuntime) -> Result<(), Fail> {
    leaves(
        &rt,
        &[0, 0],
        &[0, 0],
        one_step(Literals::all(64), ActionSet::below(128), Literals::all(64)),
        one_step(either(), ActionSet::below(2), either()),
    )
}

#[test]
fn round_zero(rt: HostRuntime) -> Result<(), Fail> {
    let task = Masks::from_tables(1, 0, &[], &[], &[-1], &[0])?;
    let mut part = Part {
        round: 0,
        steps: [ActionSet::none(); 30],
        levels: [only_true(); 31],
    };
    assert_eq!(rt; filter(&task, &mut part)?, Outcome::Kept);
    part.levels[0] = Literals::none();
    assert_eq!(rt; filter(&task, &mut part)?, Outcome::Wiped);
    Ok(())
}

// A part of round 30 with the same actions at each step, and after the first level the same values at each.
fn thirty_steps(start: Literals, actions: ActionSet, values: Literals) -> Part {
    let mut part = Part {
        round: 30,
        steps: [actions; 30],
        levels: [values; 31],
    };
    part.levels[0] = start;
    part
}

#[test]
fn round_thirty(rt: HostRuntime) -> Result<(), Fail> {
    let task = Masks::from_tables(1, 1, &[0], &[1], &[-1], &[0])?;
    let mut part = thirty_steps(only_false(), ActionSet::below(1), either());
    assert_eq!(rt; filter(&task, &mut part)?, Outcome::Kept);
    assert_eq!(rt;
        part,
        thirty_steps(only_false(), ActionSet::below(1), only_true())
    );
    part.levels[30] = only_false();
    assert_eq!(rt; filter(&task, &mut part)?, Outcome::Wiped);
    assert_eq!(rt;
        part,
        thirty_steps(Literals::none(), ActionSet::none(), Literals::none())
    );
    Ok(())
}

#[test]
fn round_thirty_one(rt: HostRuntime) -> Result<(), Fail> {
    let task = Masks::from_tables(1, 1, &[0], &[1], &[-1], &[0])?;
    let mut part = Part {
        round: 31,
        steps: [ActionSet::below(2); 30],
        levels: [either(); 31],
    };
    let given = part;
    assert_eq!(rt; filter(&task, &mut part).map_err(Refusal::number), Err(8));
    assert_eq!(rt; part, given);
    assert_eq!(rt; BoundedPart::try_from(part), Err(Refusal::Round));
    Ok(())
}

#[test]
fn one_stage_is_due(rt: HostRuntime) -> Result<(), Fail> {
    let task = Masks::from_tables(1, 2, &[0, 0], &[1, 0], &[-1], &[0])?;
    let mut part = one_step(only_false(), ActionSet::below(2), either());
    assert_eq!(rt; filter(&task, &mut part)?, Outcome::Kept);
    part.steps[0] = ActionSet::below(1);
    assert_eq!(rt;
        filter_from(&task, &mut part, StageSet::none().with(0))?,
        Outcome::Kept
    );
    assert_eq!(rt;
        part,
        one_step(only_false(), ActionSet::below(1), only_true())
    );
    Ok(())
}

#[test]
fn a_bounded_part_is_not_refused(rt: HostRuntime) -> Result<(), Fail> {
    let task = Masks::from_tables(1, 2, &[0, 0], &[1, 0], &[-1], &[0])?;
    let part = one_step(only_false(), ActionSet::below(2), only_true());
    let left = one_step(only_false(), ActionSet::below(1), only_true());
    let mut bounded = BoundedPart::try_from(part)?;
    assert_eq!(rt; bounded.filter(&task), Outcome::Kept);
    assert_eq!(rt; bounded.part, left);
    Ok(())
}
