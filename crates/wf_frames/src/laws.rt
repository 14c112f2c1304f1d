// What a look has to do with the definition of steps. The function does nothing; its clause is a law.
ghost use Rattle.wf_frames.specs.Tasks.{AssignsAsTasksDo, LooksAsTasksDo, OneLayerHolds};

/// Carries a law. Where the layers that are seen from one have the variables of those that a task sees, as the definition of steps has
/// it, a name has the value that the task sees: in the task's own layers up to the innermost that a call opened, and past them, where
/// there is none, in those outside.
pub fn looks_as_tasks_do()
    ensures { LooksAsTasksDo }
{}

/// Carries a law. Where a task's layers stand in a store, and the variables of its innermost own one see what the task sees, an assignment
/// from there does what it does in the task by the definition of steps: the same layers behind it, or the same error. A write to another
/// task's layer that isn't shared is left out. A store of one layer is such a store.
pub fn assigns_as_tasks_do()
    ensures law { AssignsAsTasksDo }
    ensures worked { OneLayerHolds }
{}
