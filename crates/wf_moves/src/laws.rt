// What branches have to do with the definition of steps. The functions do nothing; their clauses are laws.
ghost use Rattle.wf_moves.specs.Branches.{BeginsAsStepsDo, JoinsAsStepsDo};

/// Carries a law. What `Task::branch` says of the next branch is what the definition of steps begins.
pub fn begins_as_steps_do()
    ensures { BeginsAsStepsDo }
{}

/// Carries a law. Behind a parallel step whose branches have all ended a task goes on by `Task::join` as by the definition of steps.
pub fn joins_as_steps_do()
    ensures { JoinsAsStepsDo }
{}
