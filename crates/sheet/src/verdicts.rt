//! The text of a verdict.
ghost use Rattle.std.specs.Prelude.{◌≡◌, ◌+◌, ◌*◌, ◌≤◌, ◌++◌, true, cond, length, take, Ok, Err};
ghost use Rattle.std.specs.List.{flat_map};
ghost use Rattle.sheet.specs.declared.fault.Fault.TheVariants.{Mismatch};
ghost use Rattle.sheet.specs.Actions.{action_name};
ghost use Rattle.sheet.specs.Agree.{Agree};
ghost use Rattle.sheet.specs.Report.{below, ended, fits_plan, plan_text as «planned», text_for};

use crate::checked::Checked;
use crate::fault::Fault;
use crate::text::{Text, line, put};
use search::verdict::Verdict;

/// The text of a verdict on an accepted sheet.
pub fn verdict_text(sheet: Checked, verdict: Verdict, plan: &[u8]) -> Result<Text, Fault>
    ensures { Agree (λ bytes text. text.items ≡ bytes) (text_for sheet.entry.sheet.now sheet.entry.counts verdict plan.now) result }
{
    match verdict {
        Verdict::Blank => Ok(Text::new()),
        Verdict::Unfinished => {
            let mut text = Text::new();
            put(&mut text, b"unfinished\n");
            Ok(text)
        }
        Verdict::Found(count) => plan_text(sheet, usize::from(count), plan),
        Verdict::None(bound) => Ok(line(b"none ", usize::from(bound))),
    }
}

/// `found N` and the names of the first N actions of the plan.
fn plan_text(sheet: Checked, count: usize, plan: &[u8]) -> Result<Text, Fault>
    ensures { Agree (λ bytes text. text.items ≡ bytes) (cond (fits_plan sheet.entry.counts.actions count plan.now)
        (Ok (planned (action_name sheet.entry.sheet.now sheet.entry.counts.facts) count plan.now)) (Err Mismatch)) result }
{
    if !is_plan(sheet.counts.actions, count, plan) {
        return Err(Fault::Mismatch);
    }
    let mut text = line(b"found ", count);
    put_names(&mut text, sheet, &plan[..count]);
    Ok(text)
}

/// Whether a plan has `count` numbers, at most 30, each of an action.
fn is_plan(actions: usize, count: usize, plan: &[u8]) -> bool
    ensures value { result ≡ fits_plan actions count plan.now }
    ensures within { result ≡ true → (count ≤ 30) × (count ≤ length plan.now) × (below actions (take count plan.now) ≡ true) }
{
    if count > 30 || count > plan.len() {
        return false;
    }
    plan[..count]
        .iter()
        .all(|action| usize::from(*action) < actions)
}

/// Adds the names of actions to a text, one a line.
fn put_names(text: &mut Text, sheet: Checked, plan: &[u8])
    requires actions { below sheet.counts.actions plan.now ≡ true }
    requires room { length text.old.items + 25 * length plan.now ≤ 800 }
    ensures { text.new.items ≡ text.old.items ++ flat_map (λ a. ended (action_name sheet.entry.sheet.now sheet.entry.counts.facts a)) plan.now }
{
    for action in plan {
        put(text, sheet.name(usize::from(*action)));
        put(text, b"\n");
    }
}
