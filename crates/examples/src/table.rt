//! The table of worked examples. Each row is a fact about the step, the filter, the list memory, goal count or the ceiling as the
//! contracts of the search have them.
ghost use Rattle.std.specs.Prelude.{◌≡◌, true, false, [], ◌∷◌};
ghost use Rattle.memories.specs.Rows.{row};
ghost use Rattle.estimators.specs.GoalCounts.{goal_count, gains, missing_count};
ghost use Rattle.estimators.specs.Ranges.{most_below};
ghost use Rattle.search.specs.Ceiling.{ceiling};
ghost use Rattle.search.specs.Machines.Stage.{found, none, unfinished};
ghost use Rattle.examples.specs.Ends.{Answers, Ends};
ghost use Rattle.examples.specs.Jobs.{bake_and_copy, copy_from_dry_and_threaded, copy_without_baking, no_way_to_both, nothing_to_do, stay_unthreaded, three_goals, tied_facts, told_at_the_split};

/// Actions, facts and literals are numbered as the tasks have them: bake 0, thread 1, copy 2, unthread 3.
pub fn worked_examples()
    ensures eleven_steps_leave_the_copy_open { Ends bake_and_copy 4 11 unfinished (row 0 3 ∷ []) }
    ensures twelve_steps_find_the_copy { Ends bake_and_copy 4 12 (found (0 ∷ 1 ∷ 2 ∷ 3 ∷ [])) (row 0 3 ∷ []) }
    ensures the_copy_has_a_ceiling_of_677 { ceiling bake_and_copy 4 ≡ 677 }
    ensures five_steps_leave_three_actions_open { Ends bake_and_copy 3 5 unfinished [] }
    ensures six_steps_rule_out_three_actions { Ends bake_and_copy 3 6 none (row 0 3 ∷ []) }
    ensures one_step_finds_that_the_goal_holds { Ends stay_unthreaded 4 1 (found []) [] }
    ensures nothing_is_copied_without_baking { Ends copy_without_baking 4 5 none [] }
    ensures what_was_seen_shortens_the_plan { Ends copy_from_dry_and_threaded 4 5 (found (2 ∷ 3 ∷ [])) [] }
    ensures thirty_steps_leave_the_last_round { Ends nothing_to_do 30 30 unfinished [] }
    ensures each_round_takes_a_step_without_actions { Ends nothing_to_do 30 31 none [] }
    ensures three_goals_are_missing { missing_count three_goals 0 ≡ 3 }
    ensures an_action_gains_one_goal { most_below (gains three_goals 0) 3 ≡ 1 }
    ensures two_actions_are_hopeless { goal_count three_goals 0 2 ≡ true }
    ensures three_actions_are_not_hopeless { goal_count three_goals 0 3 ≡ false }
    ensures the_memory_recalls_its_pair { Answers (row 0 3 ∷ []) 0 3 true }
    ensures the_memory_recalls_less_left { Answers (row 0 3 ∷ []) 0 2 true }
    ensures the_memory_recalls_no_more_left { Answers (row 0 3 ∷ []) 0 4 false }
    ensures the_memory_recalls_no_other_state { Answers (row 0 3 ∷ []) 1 3 false }
    ensures thirty_seven_steps_find_no_way_to_both { Ends no_way_to_both 4 37 none (row 1 4 ∷ row 3 3 ∷ row 0 2 ∷ row 4 3 ∷ row 5 3 ∷ []) }
    ensures eight_steps_break_the_tie { Ends tied_facts 4 8 (found (2 ∷ 0 ∷ 1 ∷ [])) [] }
    ensures six_steps_ask_at_the_split { Ends told_at_the_split 4 6 (found (0 ∷ 2 ∷ 5 ∷ [])) [] }
{}
