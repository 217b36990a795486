//! An estimator that says nothing.
ghost use Rattle.std.specs.Prelude.{false};
ghost use Rattle.std.proofs.Common.{rules};

use crate::estimator::Estimator;
use tasks::task::Task;

/// An estimator that is never hopeless.
#[derive(Clone, Copy, PartialEq, Eq, Debug, Default)]
pub struct NeverHopeless;

impl Estimator for NeverHopeless {
    ghost hopeless = { λ _ _ _ _. false };

    ghost sound = { Prim.search rules };

    fn hopeless<T: Task>(&self, _task: &T, _state: u64, _left: u8) -> bool {
        false
    }
}
