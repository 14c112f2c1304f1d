//! Which configurations fit a program, and that they are all that an execution meets.
#![tactic(auto)]

ghost use Rattle.wf_fits.specs.Fits.{FittingExists, InitialFits, ItemsStay, LayersStay, LimitsStay, PlacesStay, RunsFit, StepsFit, TasksStay, WaitsStay};
ghost use Rattle.wf_fits.specs.Rows.{FallingRange, GreatIndex, LoopFits, ManyTasks, MissingLayer, MovesAtTheLimit, OtherValuesFit, StrangeBack, StrangeSleep, StrangeStep, StrangeThen, Unsettled};
ghost use Rattle.wf_fits.specs.Tests.{LimitsAreTested, TasksAreTested, WaitsAreTested};

/// The first configuration of an accepted program fits it, and from any that fits each event leads to one that fits.
pub fn laws_of_fits()
    ensures initial { InitialFits }
    ensures steps { StepsFit }
    ensures runs { RunsFit }
    ensures places { FittingExists }
{}

/// Each part by itself: where all held before an event, of any kind, it holds after it.
pub fn laws_of_parts()
    ensures places { PlacesStay }
    ensures items { ItemsStay }
    ensures layers { LayersStay }
    ensures tasks { TasksStay }
    ensures waits { WaitsStay }
    ensures limits { LimitsStay }
{}

/// Three of the parts as tests that compute on a configuration, and that each holds exactly where its part does. The last two are of
/// tasks whose numbers rise, which the first test tells.
pub fn tests_agree()
    ensures tasks { TasksAreTested }
    ensures waits { WaitsAreTested }
    ensures limits { LimitsAreTested }
{}

/// Worked configurations: in the middle of a loop, one that no run meets, and bent ones.
pub fn worked_configurations()
    ensures strange_step { StrangeStep }
    ensures unsettled { Unsettled }
    ensures strange_then { StrangeThen }
    ensures strange_back { StrangeBack }
    ensures falling_range { FallingRange }
    ensures great_index { GreatIndex }
    ensures missing_layer { MissingLayer }
    ensures many_tasks { ManyTasks }
    ensures strange_sleep { StrangeSleep }
    ensures moves_at_the_limit { MovesAtTheLimit }
    ensures loop_fits { LoopFits }
    ensures other_values_fit { OtherValuesFit }
{}
