//! How an execution of several live tasks is seen: the table of its tasks, beside it what each has still to do, and one store for the layers
//! of all. The functions do nothing; their clauses are laws.
#![tactic(auto)]

ghost use Rattle.wf_several.specs.Branches.{BranchAdds, BranchIsGone, BranchIsRefused, BranchesJoin};
ghost use Rattle.wf_several.specs.Here.{EntryIsHere, NewIsAlike, NoneIsAlike, TaskLeaves, TaskReads};
ghost use Rattle.wf_several.specs.Merges.{MoveMerges};
ghost use Rattle.wf_several.specs.Several.{EachStands, TableIsSeen};
ghost use Rattle.wf_several.specs.Standing.{EachFits, FirstStands, FramesStand, NobodysParent, NumbersRise, StandingHasOneProof, StandingIsOneFact};

/// What is kept of the live tasks is that of the configuration; a task of whose parallel step no branch lives stands by itself; and a move
/// of it, put back by the definition of steps, leaves the tasks that are kept then.
pub fn laws_of_several()
    ensures seen { TableIsSeen }
    ensures each { EachStands }
    ensures merges { MoveMerges }
{}

/// A step of any live task that has no live branches: what it reads is what the definition of steps has it read, and what it leaves is what
/// that leaves. Of a parallel step that it has entered no branch may have begun.
pub fn laws_of_live_tasks()
    ensures here { EntryIsHere }
    ensures reads { TaskReads }
    ensures leaves { TaskLeaves }
    ensures joins_none { NoneIsAlike }
    ensures joins_new { NewIsAlike }
{}

/// Where all stand, as one fact with at most one proof.
pub fn laws_of_standing()
    ensures one { StandingIsOneFact }
    ensures one_proof { StandingHasOneProof }
    ensures fits { EachFits }
    ensures frames { FramesStand }
    ensures first { FirstStands }
    ensures numbers { NumbersRise }
    ensures childless { NobodysParent }
{}

/// A parallel step among the live tasks: its next branch is one task more, or its names don't fit and it has ended at once; and a branch
/// that has ended is gone, and its parallel step keeps its error; and where all have ended the task goes on behind it.
pub fn laws_of_branches()
    ensures adds { BranchAdds }
    ensures refused { BranchIsRefused }
    ensures gone { BranchIsGone }
    ensures joined { BranchesJoin }
{}
