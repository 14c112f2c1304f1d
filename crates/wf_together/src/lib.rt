//! Laws of executions in which several tasks may live.
#![tactic(auto)]

ghost use Rattle.wf_together.specs.Childless.{MovingIsChildless, NoneWaitsInAJoin};
ghost use Rattle.wf_together.specs.Chosen.{ChosenCanCome};
ghost use Rattle.wf_together.specs.Quiet.{SeveralHaveADue};
ghost use Rattle.wf_together.specs.Reached.{ReachedStands};
ghost use Rattle.wf_together.specs.Steps.{AnswerComes, AnswerStops, DueComes, OthersNeverCome, StepComes, StepStops};

use wf_model::laws_of_waits;
use wf_never_wrong::laws_of_places;

/// Without an outcome, where nothing can move, something will be due.
pub fn laws_of_joins()
    ensures quiet { SeveralHaveADue }
{
    // laws that the proof uses
    laws_of_waits();
}

/// The configurations to which runs of accepted programs lead stand well, and what is chosen there can come.
pub fn laws_of_runs_together()
    ensures reached { ReachedStands }
    ensures chosen { ChosenCanCome }
    ensures childless { MovingIsChildless }
    ensures no_wait { NoneWaitsInAJoin }
{
    // laws that the proof uses
    laws_of_places();
}

/// Where the events of any live task lead, and which can't come, in any configuration without an outcome: what the event does by itself is put
/// into it.
pub fn laws_of_events()
    ensures step { StepComes }
    ensures stopped { StepStops }
    ensures answer { AnswerComes }
    ensures flooded { AnswerStops }
    ensures due { DueComes }
    ensures never { OthersNeverCome }
{}
