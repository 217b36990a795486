//! The search and its five calls.
ghost use Rattle.std.specs.Prelude.{◌≡◌, ℕ, ◌+◌, ◌↔◌, Bool, IfOk, IsTrue, MatchResult};
ghost use Rattle.memories.specs.Pairs.{Pairs, recalls};
ghost use Rattle.tasks.specs.Bundle.{meaning};
ghost use Rattle.tasks.specs.Masked.{masked};
ghost use Rattle.tasks.specs.Meaning.{Meaning};
ghost use Rattle.search.specs.Calls.{Advancing, Lifting, Opening, Planning, Refuses};
ghost use Rattle.search.specs.Entries.{entries_of};
ghost use Rattle.search.specs.Machines.Stage.{blank, unfinished};
ghost use Rattle.search.specs.Runs.{AnswersAShortestPlan, HasRoomFor, LeavesEveryRun, OpensARun, Run, TheLaw, WritesAShortestPlan, counted, recounted, verdict_of};
ghost use Rattle.search.specs.Parts.{actions_of};
ghost use Rattle.search.specs.Steps.{put_up};
ghost use Rattle.search.specs.Stored.{KeptUp, stage_of};

use crate::advisers::Advisers;
use crate::apply::apply;
use crate::call::Call;
use crate::plan::Plan;
use crate::refusal::Refusal;
use crate::rounds::Rounds;
use crate::stack::Stack;
use crate::stage::Stage;
use crate::verdict::Verdict;
use estimators::estimator::Estimator;
use memories::memory::Memory;
use std::alloc::{AllocError, Global};
use tasks::Snapshot;
use tasks::task::Task;

/// A search for a shortest plan. Its holders call `open`, `advance`, `lift`, `verdict` and `plan` on it, and `standing`, which
/// answers the plan as a value.
#[derive(Drop)]
pub struct Search {
    stage: Stage,
    rounds: Rounds,
    stack: Stack,
    ghost kept: { ∥ KeptUp (stage_of stage) rounds.round (entries_of stack) ∥₁ },
}

impl Search {
    ghost use Rattle.search.specs.Plays.{plan_standing};
    ghost use Rattle.search.specs.Stepped.{Gone, Stepped, machine_of};

    /// A blank search, with all the room that it will ever need. No call on it allocates.
    pub fn new(heap: Global) -> Result<Search, AllocError>
        ensures value { IfOk result (λ s. (machine_of s).stage ≡ blank) }
    {
        Ok(Search {
            stage: Stage::Blank,
            rounds: Rounds { round: 0, bound: 0 },
            stack: Stack::new(heap)?,
        })
    }

    /// Opens the search of a task up to a bound of at most 30: the memory is emptied, and round 0 is put up.
    pub fn open<T: Task, M: Memory>(
        &mut self,
        task: &T,
        memory: &mut M,
        bound: u8,
    ) -> Result<(), Refusal>
        ensures does { Opening M M.Memory.empties (meaning T.Task task.now) bound (machine_of self.old) memory.old (machine_of self.new) memory.new result }
        ensures run { OpensARun (machine_of self.old) (machine_of self.new) (M.Memory.has memory.new) (meaning T.Task task.now) result }
    {
        self.admit(Call::Open(bound))?;
        memory.empty();
        self.put_up(task, Rounds { round: 0, bound });
        Ok(())
    }

    /// Makes `amount` steps, 1 to 1,000,000, fewer only if a verdict falls, and answers the steps made.
    pub fn advance<T: Task, M: Memory, E: Estimator>(
        &mut self,
        task: &T,
        memory: &mut M,
        estimator: &E,
        amount: u32,
    ) -> Result<u32, Refusal>
        ensures does { Advancing M (λ x. recalls (M.Memory.has x)) M.Memory.keeps (meaning T.Task task.now) (E.Estimator.hopeless estimator.now (meaning T.Task task.now)) amount (machine_of self.old) memory.old (machine_of self.new) memory.new result }
        ensures run { (n : ℕ) → Run (machine_of self.old) (M.Memory.has memory.old) (meaning T.Task task.now) (E.Estimator.hopeless estimator.now (meaning T.Task task.now)) n → Run (machine_of self.new) (M.Memory.has memory.new) (meaning T.Task task.now) (E.Estimator.hopeless estimator.now (meaning T.Task task.now)) (n + counted amount result) }
    {
        self.admit(Call::Advance(amount))?;
        let snapshot = Snapshot::of(task);
        Ok(self.go(&snapshot, memory, estimator, amount))
    }

    /// Goes on after none with a larger bound, from the round after the old one; the memory stays.
    pub fn lift<T: Task>(&mut self, task: &T, bound: u8) -> Result<(), Refusal>
        ensures does { Lifting (meaning T.Task task.now) bound (machine_of self.old) (machine_of self.new) result }
        ensures run { (P : Pairs) (h : ℕ → ℕ → Bool) (n : ℕ) → Run (machine_of self.old) P (meaning T.Task task.now) h n → Run (machine_of self.new) P (meaning T.Task task.now) h (recounted n result) }
    {
        self.admit(Call::Lift(bound))?;
        let round = self.rounds.bound + 1;
        self.put_up(task, Rounds { round, bound });
        Ok(())
    }

    /// The verdict that stands.
    #[tactic(auto, using(crate::proofs::Running::every_plan_fits, crate::proofs::Running::every_run_is_lawful))]
    pub fn verdict(&self) -> Verdict
        ensures value { result ≡ verdict_of (machine_of self.now).stage (machine_of self.now).bound }
        ensures run { LeavesEveryRun (machine_of self.now) (machine_of self.now) }
        ensures within { (P : Pairs) (m : Meaning) (h : ℕ → ℕ → Bool) (n : ℕ) → Run (machine_of self.now) P m h n → HasRoomFor (machine_of self.now).stage (machine_of self.now).bound }
        ensures law { (P : Pairs) (m : Meaning) (h : ℕ → ℕ → Bool) (n : ℕ) → Run (machine_of self.now) P m h n → TheLaw (machine_of self.now).stage (machine_of self.now).bound m n }
    {
        match &self.stage {
            Stage::Blank => Verdict::Blank,
            Stage::Unfinished => Verdict::Unfinished,
            Stage::Found(plan) => Verdict::Found(plan.len() as u8),
            Stage::None => Verdict::None(self.rounds.bound),
        }
    }

    /// Writes the plan that stands as bytes, and answers how many; later bytes of the buffer stay.
    pub fn plan(&self, buffer: &mut [u8]) -> Result<usize, Refusal>
        ensures does { Planning (machine_of self.now) buffer.old buffer.new result }
        ensures run { LeavesEveryRun (machine_of self.now) (machine_of self.now) }
        ensures law { WritesAShortestPlan (machine_of self.now) buffer.new result }
    {
        self.admit(Call::Plan(buffer.len()))?;
        let Stage::Found(plan) = &self.stage else {
            unreachable!()
        };
        let front = &mut buffer[..plan.len()];
        front.copy_from_slice(plan.as_slice());
        Ok(plan.len())
    }

    /// The plan that stands, as a value; it is empty where none stands.
    pub fn standing(&self) -> Plan
        ensures value { actions_of result ≡ plan_standing (machine_of self.now).stage }
        ensures run { LeavesEveryRun (machine_of self.now) (machine_of self.now) }
        ensures law { AnswersAShortestPlan (machine_of self.now) (actions_of result) }
    {
        match self.stage {
            Stage::Found(plan) => plan,
            _ => Plan::new(),
        }
    }

    // Whether the verdict that stands admits the call, and else why it refuses it.
    fn admit(&self, call: Call) -> Result<(), Refusal>
        ensures { MatchResult result (λ _. Refuses (machine_of self.now) call None) (λ e. Refuses (machine_of self.now) call (Some e)) }
    {
        match (&self.stage, call) {
            (_, Call::Open(bound)) if bound > 30 => Err(Refusal::Bound),
            (_, Call::Open(_) | Call::Verdict) => Ok(()),
            (Stage::Blank, _) => Err(Refusal::Blank),
            (_, Call::Advance(amount)) if amount < 1 || amount > 1_000_000 => Err(Refusal::Amount),
            (_, Call::Advance(_)) => Ok(()),
            (Stage::None, Call::Lift(bound)) if bound > 30 || bound <= self.rounds.bound => Err(
                Refusal::Bound,
            ),
            (Stage::None, Call::Lift(_)) => Ok(()),
            (_, Call::Lift(_)) => Err(Refusal::NotNone),
            (Stage::Found(plan), Call::Plan(room)) if room < plan.len() => Err(Refusal::Buffer),
            (Stage::Found(_), Call::Plan(_)) => Ok(()),
            (_, Call::Plan(_)) => Err(Refusal::NotFound),
        }
    }

    // Puts up a round: its first part is the only entry.
    fn put_up<T: Task>(&mut self, task: &T, rounds: Rounds)
        ensures { machine_of self.new ≡ put_up (meaning T.Task task.now) rounds.bound rounds.round }
    {
        self.stack.clear();
        self.stack.push_first(task, rounds);
        self.stage = Stage::Unfinished;
        self.rounds = rounds;
    }

    // Makes steps until there are so many or a verdict falls, and answers how many were made.
    fn go<M: Memory, E: Estimator>(
        &mut self,
        snapshot: &Snapshot,
        memory: &mut M,
        estimator: &E,
        amount: u32,
    ) -> u32
        ensures { Gone M.Memory E.Estimator (masked snapshot.now) estimator.now amount (machine_of self.old) memory.old (machine_of self.new) memory.new result }
    {
        for made in 0..amount {
            if !self.is_unfinished() {
                return made;
            }
            self.step(snapshot, memory, estimator);
        }
        amount
    }

    // Whether the search goes on.
    fn is_unfinished(&self) -> bool
        ensures { IsTrue result ↔ (stage_of self.now.stage ≡ unfinished) }
    {
        matches!(self.stage, Stage::Unfinished)
    }

    // One step of an unfinished search.
    fn step<M: Memory, E: Estimator>(&mut self, snapshot: &Snapshot, memory: &mut M, estimator: &E)
        requires { stage_of self.old.stage ≡ unfinished }
        ensures { Stepped M.Memory E.Estimator (masked snapshot.now) estimator.now (machine_of self.old) memory.old (machine_of self.new) memory.new }
    {
        let open = self.stack.take_part();
        let advisers = Advisers {
            memory: &*memory,
            estimator,
        };
        let fate = advisers.decide(snapshot, open.part);
        let standing = apply(
            &mut self.stack,
            memory,
            snapshot,
            self.rounds,
            open.from,
            fate,
        );
        self.stage = standing.stage;
        self.rounds = standing.rounds;
    }
}
