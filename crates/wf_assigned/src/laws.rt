//! Laws: they do nothing, and their contracts are the laws.
ghost use Rattle.wf_assigned.specs.Law.{BitsAreMarks, MarksAreExact};
ghost use Rattle.wf_assigned.specs.TaskLaws.{BranchBegins, FlowBegins, MovesStand, OutersAreSeen, SureIsSeen, TurnBegins, WaitsStand};

/// Marks tell exactly which reads are sure and which points no walk reaches, and the bits of a name are such marks.
pub fn laws_of_marks()
    ensures exact { MarksAreExact }
    ensures bits { BitsAreMarks }
{}

/// A task that stands where a walk has come sees what is sure there, and stands so behind each of its moves.
pub fn laws_of_tasks()
    // A name that is sure where a walk has come is seen there, and no walk-less point is such a place.
    ensures seen { SureIsSeen }
    // Whatever the task does next leads to such a place.
    ensures moves { MovesStand }
    // So does the end of each wait.
    ensures waits { WaitsStand }
    // A workflow, a branch and an iteration begin so.
    ensures flow { FlowBegins }
    ensures branch { BranchBegins }
    ensures turn { TurnBegins }
    // What a task sees outside is what its parent sees.
    ensures outers { OutersAreSeen }
{}
