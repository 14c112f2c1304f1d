//! Laws of the language's meaning, for every program. The functions do nothing; each of their clauses is a law.

ghost use Rattle.wf_model.specs.ChoiceLaws.{NothingIsChosenWhenQuiet, NothingIsChosenBehindAnOutcome, ChoiceTakesTheReading};
ghost use Rattle.wf_model.specs.CallLaws.{CallsGoOn, AnswersClose, RequestsAreAsked};
ghost use Rattle.wf_model.specs.CountLaws.{EventsAreCounted, EventsAreFew, RunsAreShort, TakenWeighsNothing, TasksWeighLittle};
ghost use Rattle.wf_model.specs.ReadingLaws.{StepsRead, ChosenIsFromInside};
ghost use Rattle.wf_model.specs.WaitLaws.{AnswersLead, CallsAreAwaited, QuietHasADue, RootLives, SoundAtFirst, SoundIsAwaited, StepsStaySound, WaitingHasADue};
ghost use Rattle.wf_model.specs.TurnLaws.{NextTurnGoesOn, LaterTurnDoesNotCount, AllTurnsAreTheRun};
ghost use Rattle.wf_model.specs.RunLaws.{RunsJoin, FrontIsARun, StepGoesOn, RunsAgree, StepIsOne, NothingFollowsAnOutcome, StepsCount, StepsOnlyCloseCalls, RequestsStay, RunsAreBounded, TasksAreNumbered};

/// What holds of steps and runs: a run is put together from its parts, an event leads to at most one configuration, no event comes
/// behind an outcome, readings don't fall, there are at most 100,000 moves, the request of an open call never
/// changes, and live tasks stand by rising number below the count of tasks made.
pub fn laws_of_runs()
    ensures runs_join { RunsJoin }
    ensures front_is_a_run { FrontIsARun }
    ensures step_goes_on { StepGoesOn }
    ensures runs_agree { RunsAgree }
    ensures step_is_one { StepIsOne }
    ensures nothing_follows_an_outcome { NothingFollowsAnOutcome }
    ensures steps_count { StepsCount }
    ensures steps_only_close_calls { StepsOnlyCloseCalls }
    ensures requests_stay { RequestsStay }
    ensures runs_are_bounded { RunsAreBounded }
    ensures tasks_are_numbered { TasksAreNumbered }
{}

/// What holds of the engine's choice: it is none exactly where nothing can go on at the reading, or where there is an outcome, and
/// its reading is the given one or the last one, whichever is greater.
pub fn laws_of_choice()
    ensures nothing_is_chosen_when_quiet { NothingIsChosenWhenQuiet }
    ensures nothing_is_chosen_behind_an_outcome { NothingIsChosenBehindAnOutcome }
    ensures choice_takes_the_reading { ChoiceTakesTheReading }
{}

/// What holds of the configuration after the turns of a journal up to a session and its waits: each turn before that point leads on, and
/// none behind it counts.
pub fn laws_of_turns()
    ensures next_turn_goes_on { NextTurnGoesOn }
    ensures later_turn_does_not_count { LaterTurnDoesNotCount }
    ensures all_turns_are_the_run { AllTurnsAreTheRun }
{}

/// What holds of calls: events only close them, new ones come behind, and an answer closes its call unless it ends the execution. The
/// request of an open call is made of what it asks, of the execution's id and of the call's number.
pub fn laws_of_calls()
    ensures calls_go_on { CallsGoOn }
    ensures answers_close { AnswersClose }
    ensures requests_are_asked { RequestsAreAsked }
{}

/// What holds of readings and choices: a step takes its event's reading, and what is chosen needs nothing from outside.
pub fn laws_of_readings()
    ensures steps_read { StepsRead }
    ensures chosen_is_from_inside { ChosenIsFromInside }
{}

/// What holds of waits: an open call is one for which its task waits, and a task waits for none but an open call of its own; without an
/// outcome task 0 lives; where a task waits there is a due moment; and an answer to an open call can come.
pub fn laws_of_waits()
    ensures sound_at_first { SoundAtFirst }
    ensures steps_stay_sound { StepsStaySound }
    ensures sound_is_awaited { SoundIsAwaited }
    ensures calls_are_awaited { CallsAreAwaited }
    ensures root_lives { RootLives }
    ensures waiting_has_a_due { WaitingHasADue }
    ensures quiet_has_a_due { QuietHasADue }
    ensures answers_lead { AnswersLead }
{}

/// What holds of counts of events: with each that nothing outside has to bring, the weight of the tasks' waits and three times the moves
/// that are left fall. An answer or a request that comes makes no task heavier, and a task weighs at most two. With each event but a
/// request they fall, or the execution ends; so a run has at most 300,001 events beside the requests that came.
pub fn laws_of_counts()
    ensures events_are_counted { EventsAreCounted }
    ensures taken_weighs_nothing { TakenWeighsNothing }
    ensures tasks_weigh_little { TasksWeighLittle }
    ensures events_are_few { EventsAreFew }
    ensures runs_are_short { RunsAreShort }
{}
