//! Worked examples: literal programs, the events of a run, and what it comes to. The functions do nothing; each of their clauses is
//! an example, and the check carries it out.

ghost use Rattle.wf_model.specs.RowsRuns.{ReturnGivesItsValue, NothingFollowsAReturn, SumOutOfRangeRaises, RaisedNumberIsATypeError, ArgumentIsBound, LoopSumsToTenInTwelveMoves, BreakLeavesTheLoop, ContinueGoesToTheNextIteration, JumpOutOfALoopIsWrong, JumpToNoStepIsWrong, BreakOutsideALoopIsWrong, NextBesideABodyIsAMove, NextAloneIsOneMove, PlaceIsAssigned, ParametersTakeArgumentsAndDefaults, CallHidesTheCallersNames, EntryDecidesTheEvent, ClockIsNotReadByAMove, FirstEntryTakesNoReading, ReadingsDoNotFall};
ghost use Rattle.wf_model.specs.RowsErrors.{ErrorLeavesNestedSteps, ErrorPassesATryWithoutExcept, ExceptDoesNotCatchItself, UncaughtErrorIsTheOutcome, ErrorLeavesALoopAndACall, ErrorTakesLayersAlong, CaughtErrorLeavesTheCallsNames, ExceptsLayerEnds, ReturnLeavesATry, RangeIsEvaluatedFirst, RightSideComesFirst, PlacesComeBeforeTheVariable, MissingVariableIsAKeyError, ArgumentsComeFirst, NestingOfAResultIsLimited};
ghost use Rattle.wf_model.specs.RowsRetries.{FiveDelaysUnderTheDefaultPolicy, NoDelayEndsEarly, DelayCountsFromTheAnswer, OtherCodesAreNotRetried, PredicateSaysYes, PredicateSaysNo, NoRetriesDoNotAsk, OtherAnswersPassTheTry, ErrorsOfThePredicatePassTheTry};
ghost use Rattle.wf_model.specs.RowsBranches.{BothReadAndThenBothWrite, OneBranchAfterTheOther, EngineChoosesInTurn, SharedWriteIsSeenOutside, NewNameStaysInTheBranch, UndeclaredWriteIsWrong, HundredInTheOrderOfCalls, HundredOneBranchFirst, JoinTellsTheErrorOfABranch, JoinWaitsForEachBranch, ErrorsStandInBranchOrder, ContinueEndsAnIteration, BothCallsAreMade, LimitKeepsTheSecondBack, EndedBranchMakesRoom, TwentyRunAtOnce, QuietUntilTheLeastDueMoment, ChoiceTakesTheGreaterReading, CancellingKeepsTasksAndCalls, CancellingIsNoMove, NothingFollowsCancelling};
ghost use Rattle.wf_model.specs.RowsLimits.{TenThousandMoves, MoveBeforeTheLimit, MoveAtTheLimit, LimitPassesEachTry, NothingFollowsTheLimit, TwentyCallsInEachOther, TwentyFirstCallRaises, PredicateCountsTheCallsOutside, SecondParallelStepRuns, SecondRaisesUnderTheFirstRules, ThirdParallelStepRaises, RulesNameTheLimits, FirstRulesHold65536, OneMoreRaises, LaterRulesHoldMore, BeginPastTheLimitKeepsItsError};
ghost use Rattle.wf_model.specs.RowsCalls.{RequestOfTheFirstCall, AnswerGoesIntoTheResult, CallIsAnsweredOnce, BrokenAnswerRaises, LongAnswerRaises, CallTimesOut, CallDoesNotTimeOutEarly, BadCallUsesNoNumber, NoRouteRaises, BodiesPastTheLimitEndIt, CallStaysOpenAtTheLimit, RequestOfAPost, TwoNamesAreCollected};
ghost use Rattle.wf_model.specs.RowsWaits.{LogHasTheLastReading, UnknownSeverityRaises, SleepEndsWhenDue, SleepDoesNotEndEarly, SleepTakesAReading, PassedTimeIsDueAtOnce, BadTimeRaises, EndpointHasAUrl, NoEndpointWithoutListening, EarlyCallbackIsTakenAtOnce, LateCallbackEndsTheWait, OtherMethodsDoNotArrive, UnknownEndpointTakesNothing, HundredCallbacksWait, OneMoreHasNoRoom, AwaitTimesOut};
ghost use Rattle.wf_model.specs.RowsChecks.{CollectingIsAccepted, FetchingIsAccepted, AskingIsAccepted, ParallelLoopIsAccepted, UnknownNameIsAFault, LogOfTwoIsAFault, NoStepsAreAFault, UndeclaredWriteIsAFault, SharedWriteIsAccepted, NewNameIsAccepted, DoubleStepIsAFault, UnknownStepIsAFault, JumpOutOfALoopIsAFault, BreakOutsideALoopIsAFault, ReturnInABranchIsAFault, UnknownSharedIsAFault, UnknownCallIsAFault, FiftyEntriesAreAccepted, OneEntryMoreIsAFault};

/// Runs of small programs: returns, loops, jumps, places, workflows, and which event a step wants.
pub fn worked_runs()
    ensures return_gives_its_value { ReturnGivesItsValue }
    ensures nothing_follows_a_return { NothingFollowsAReturn }
    ensures sum_out_of_range_raises { SumOutOfRangeRaises }
    ensures raised_number_is_a_type_error { RaisedNumberIsATypeError }
    ensures argument_is_bound { ArgumentIsBound }
    ensures loop_sums_to_ten_in_twelve_moves { LoopSumsToTenInTwelveMoves }
    ensures break_leaves_the_loop { BreakLeavesTheLoop }
    ensures continue_goes_to_the_next_iteration { ContinueGoesToTheNextIteration }
    ensures jump_out_of_a_loop_is_wrong { JumpOutOfALoopIsWrong }
    ensures jump_to_no_step_is_wrong { JumpToNoStepIsWrong }
    ensures break_outside_a_loop_is_wrong { BreakOutsideALoopIsWrong }
    ensures next_beside_a_body_is_a_move { NextBesideABodyIsAMove }
    ensures next_alone_is_one_move { NextAloneIsOneMove }
    ensures place_is_assigned { PlaceIsAssigned }
    ensures parameters_take_arguments_and_defaults { ParametersTakeArgumentsAndDefaults }
    ensures call_hides_the_callers_names { CallHidesTheCallersNames }
    ensures entry_decides_the_event { EntryDecidesTheEvent }
    ensures clock_is_not_read_by_a_move { ClockIsNotReadByAMove }
    ensures first_entry_takes_no_reading { FirstEntryTakesNoReading }
    ensures readings_do_not_fall { ReadingsDoNotFall }
{}

/// Errors that go outward to the nearest `except`, with the layers of what they leave.
pub fn worked_errors()
    ensures error_leaves_nested_steps { ErrorLeavesNestedSteps }
    ensures error_passes_a_try_without_except { ErrorPassesATryWithoutExcept }
    ensures except_does_not_catch_itself { ExceptDoesNotCatchItself }
    ensures uncaught_error_is_the_outcome { UncaughtErrorIsTheOutcome }
    ensures error_leaves_a_loop_and_a_call { ErrorLeavesALoopAndACall }
    ensures error_takes_layers_along { ErrorTakesLayersAlong }
    ensures caught_error_leaves_the_calls_names { CaughtErrorLeavesTheCallsNames }
    ensures excepts_layer_ends { ExceptsLayerEnds }
    ensures return_leaves_a_try { ReturnLeavesATry }
    ensures range_is_evaluated_first { RangeIsEvaluatedFirst }
    ensures right_side_comes_first { RightSideComesFirst }
    ensures places_come_before_the_variable { PlacesComeBeforeTheVariable }
    ensures missing_variable_is_a_key_error { MissingVariableIsAKeyError }
    ensures arguments_come_first { ArgumentsComeFirst }
    ensures nesting_of_a_result_is_limited { NestingOfAResultIsLimited }
{}

/// Bodies that are tried again, the delays between, and who decides.
pub fn worked_retries()
    ensures five_delays_under_the_default_policy { FiveDelaysUnderTheDefaultPolicy }
    ensures no_delay_ends_early { NoDelayEndsEarly }
    ensures delay_counts_from_the_answer { DelayCountsFromTheAnswer }
    ensures other_codes_are_not_retried { OtherCodesAreNotRetried }
    ensures predicate_says_yes { PredicateSaysYes }
    ensures predicate_says_no { PredicateSaysNo }
    ensures no_retries_do_not_ask { NoRetriesDoNotAsk }
    ensures other_answers_pass_the_try { OtherAnswersPassTheTry }
    ensures errors_of_the_predicate_pass_the_try { ErrorsOfThePredicatePassTheTry }
{}

/// Branches side by side: what they share, their joins, their limits, the engine's choice and cancelling.
pub fn worked_branches()
    ensures both_read_and_then_both_write { BothReadAndThenBothWrite }
    ensures one_branch_after_the_other { OneBranchAfterTheOther }
    ensures engine_chooses_in_turn { EngineChoosesInTurn }
    ensures shared_write_is_seen_outside { SharedWriteIsSeenOutside }
    ensures new_name_stays_in_the_branch { NewNameStaysInTheBranch }
    ensures undeclared_write_is_wrong { UndeclaredWriteIsWrong }
    ensures hundred_in_the_order_of_calls { HundredInTheOrderOfCalls }
    ensures hundred_one_branch_first { HundredOneBranchFirst }
    ensures join_tells_the_error_of_a_branch { JoinTellsTheErrorOfABranch }
    ensures join_waits_for_each_branch { JoinWaitsForEachBranch }
    ensures errors_stand_in_branch_order { ErrorsStandInBranchOrder }
    ensures continue_ends_an_iteration { ContinueEndsAnIteration }
    ensures both_calls_are_made { BothCallsAreMade }
    ensures limit_keeps_the_second_back { LimitKeepsTheSecondBack }
    ensures ended_branch_makes_room { EndedBranchMakesRoom }
    ensures twenty_run_at_once { TwentyRunAtOnce }
    ensures quiet_until_the_least_due_moment { QuietUntilTheLeastDueMoment }
    ensures choice_takes_the_greater_reading { ChoiceTakesTheGreaterReading }
    ensures cancelling_keeps_tasks_and_calls { CancellingKeepsTasksAndCalls }
    ensures cancelling_is_no_move { CancellingIsNoMove }
    ensures nothing_follows_cancelling { NothingFollowsCancelling }
{}

/// Limits: on moves, on calls and on parallel steps in each other, and on variables.
pub fn worked_limits()
    ensures ten_thousand_moves { TenThousandMoves }
    ensures move_before_the_limit { MoveBeforeTheLimit }
    ensures move_at_the_limit { MoveAtTheLimit }
    ensures limit_passes_each_try { LimitPassesEachTry }
    ensures nothing_follows_the_limit { NothingFollowsTheLimit }
    ensures twenty_calls_in_each_other { TwentyCallsInEachOther }
    ensures twenty_first_call_raises { TwentyFirstCallRaises }
    ensures predicate_counts_the_calls_outside { PredicateCountsTheCallsOutside }
    ensures second_parallel_step_runs { SecondParallelStepRuns }
    ensures second_raises_under_the_first_rules { SecondRaisesUnderTheFirstRules }
    ensures third_parallel_step_raises { ThirdParallelStepRaises }
    ensures rules_name_the_limits { RulesNameTheLimits }
    ensures first_rules_hold65536 { FirstRulesHold65536 }
    ensures one_more_raises { OneMoreRaises }
    ensures later_rules_hold_more { LaterRulesHoldMore }
    ensures begin_past_the_limit_keeps_its_error { BeginPastTheLimitKeepsItsError }
{}

/// Calls of services: requests, answers, due moments, and the limit on the sum of bodies.
pub fn worked_calls()
    ensures request_of_the_first_call { RequestOfTheFirstCall }
    ensures answer_goes_into_the_result { AnswerGoesIntoTheResult }
    ensures call_is_answered_once { CallIsAnsweredOnce }
    ensures broken_answer_raises { BrokenAnswerRaises }
    ensures long_answer_raises { LongAnswerRaises }
    ensures call_times_out { CallTimesOut }
    ensures call_does_not_time_out_early { CallDoesNotTimeOutEarly }
    ensures bad_call_uses_no_number { BadCallUsesNoNumber }
    ensures no_route_raises { NoRouteRaises }
    ensures bodies_past_the_limit_end_it { BodiesPastTheLimitEndIt }
    ensures call_stays_open_at_the_limit { CallStaysOpenAtTheLimit }
    ensures request_of_a_post { RequestOfAPost }
    ensures two_names_are_collected { TwoNamesAreCollected }
{}

/// Logs, sleeps and callbacks.
pub fn worked_waits()
    ensures log_has_the_last_reading { LogHasTheLastReading }
    ensures unknown_severity_raises { UnknownSeverityRaises }
    ensures sleep_ends_when_due { SleepEndsWhenDue }
    ensures sleep_does_not_end_early { SleepDoesNotEndEarly }
    ensures sleep_takes_a_reading { SleepTakesAReading }
    ensures passed_time_is_due_at_once { PassedTimeIsDueAtOnce }
    ensures bad_time_raises { BadTimeRaises }
    ensures endpoint_has_a_url { EndpointHasAUrl }
    ensures no_endpoint_without_listening { NoEndpointWithoutListening }
    ensures early_callback_is_taken_at_once { EarlyCallbackIsTakenAtOnce }
    ensures late_callback_ends_the_wait { LateCallbackEndsTheWait }
    ensures other_methods_do_not_arrive { OtherMethodsDoNotArrive }
    ensures unknown_endpoint_takes_nothing { UnknownEndpointTakesNothing }
    ensures hundred_callbacks_wait { HundredCallbacksWait }
    ensures one_more_has_no_room { OneMoreHasNoRoom }
    ensures await_times_out { AwaitTimesOut }
{}

/// What the checker says of these programs, and of some faulty ones.
pub fn worked_checks()
    ensures collecting_is_accepted { CollectingIsAccepted }
    ensures fetching_is_accepted { FetchingIsAccepted }
    ensures asking_is_accepted { AskingIsAccepted }
    ensures parallel_loop_is_accepted { ParallelLoopIsAccepted }
    ensures unknown_name_is_a_fault { UnknownNameIsAFault }
    ensures log_of_two_is_a_fault { LogOfTwoIsAFault }
    ensures no_steps_are_a_fault { NoStepsAreAFault }
    ensures undeclared_write_is_a_fault { UndeclaredWriteIsAFault }
    ensures shared_write_is_accepted { SharedWriteIsAccepted }
    ensures new_name_is_accepted { NewNameIsAccepted }
    ensures double_step_is_a_fault { DoubleStepIsAFault }
    ensures unknown_step_is_a_fault { UnknownStepIsAFault }
    ensures jump_out_of_a_loop_is_a_fault { JumpOutOfALoopIsAFault }
    ensures break_outside_a_loop_is_a_fault { BreakOutsideALoopIsAFault }
    ensures return_in_a_branch_is_a_fault { ReturnInABranchIsAFault }
    ensures unknown_shared_is_a_fault { UnknownSharedIsAFault }
    ensures unknown_call_is_a_fault { UnknownCallIsAFault }
    ensures fifty_entries_are_accepted { FiftyEntriesAreAccepted }
    ensures one_entry_more_is_a_fault { OneEntryMoreIsAFault }
{}
