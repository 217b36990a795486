//! What holds of the search for every task, memory and estimator.
ghost use Rattle.search.specs.Depths.{AShallowStackIsShort, ARoundThatIsPutUpIsShallow, EveryStepKeepsTheStackShallow, EveryStepLeavesAPartOnTop, EveryStepKeepsTheRoundWithinTheBound};
ghost use Rattle.search.specs.Runs.{EveryRunIsLawful, WhatPlanWritesIsAShortestPlan};
ghost use Rattle.search.specs.Skips.{ARoundThatIsPutUpIsOrdered, EveryStepKeepsTheOrder, ACallBeginsWithNoAnswers, EveryStepKeepsTheAnswers, OnlyLaterLevelsNeedAsking};

/// After every run of calls the law holds, and what the plan call writes is a shortest plan.
pub fn every_run_is_lawful()
    ensures law { EveryRunIsLawful }
    ensures plan { WhatPlanWritesIsAShortestPlan }
{}

/// The stack stays short, whatever tasks are passed.
pub fn the_stack_stays_short()
    ensures short { AShallowStackIsShort }
    ensures first { ARoundThatIsPutUpIsShallow }
    ensures step { EveryStepKeepsTheStackShallow }
    ensures top { EveryStepLeavesAPartOnTop }
    ensures bound { EveryStepKeepsTheRoundWithinTheBound }
{}

/// Within one call, levels that were asked need not be asked again, and consistent stages need not be filtered.
pub fn only_later_levels_need_asking()
    ensures first { ARoundThatIsPutUpIsOrdered }
    ensures order { EveryStepKeepsTheOrder }
    ensures nothing { ACallBeginsWithNoAnswers }
    ensures answers { EveryStepKeepsTheAnswers }
    ensures later { OnlyLaterLevelsNeedAsking }
{}
