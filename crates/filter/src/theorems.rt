//! What holds of filtering and of plans, for every task.
ghost use Rattle.filter.specs.Theorems.{FilteringHasOneResult, TheTraceOfAPlanIsConsistent, FilteringLosesNoPlan, ALevelAfterSingleStepsIsAState, SingleStepsAreAPlan};

/// What holds of filtering and of plans, for every task; the call itself does nothing.
pub fn laws()
    ensures unique { FilteringHasOneResult }
    ensures trace { TheTraceOfAPlanIsConsistent }
    ensures kept { FilteringLosesNoPlan }
    ensures states { ALevelAfterSingleStepsIsAState }
    ensures plan { SingleStepsAreAPlan }
{}
