// What the checker may say.
ghost use Rattle.std.specs.Prelude.{◌≡◌};
ghost use Rattle.wf_diagnostics.specs.Kinds.{kind_name};

use std::fmt;

/// Why a program isn't accepted: the rules in the order of their numbers, and a form that isn't built yet.
#[derive(Debug, Clone, Copy, PartialEq, Eq)]
pub enum CheckKind {
    /// A list of steps, or of branches, has no item.
    EmptySteps,
    /// A step's name stands earlier in its workflow, or a branch's earlier in its step.
    DoubleStep,
    /// A `next` names no step of its workflow.
    UnknownStep,
    /// A `next` names a step that no jump from there reaches.
    JumpOutOfScope,
    /// A `break` or a `continue` has no loop to act on.
    BreakOutsideLoop,
    /// A branch, or the body of a parallel loop, would end the workflow.
    ReturnInBranch,
    /// A branch, or the body of a parallel loop, assigns a name from outside that isn't shared.
    UndeclaredWrite,
    /// A shared name is of no layer outside.
    UnknownShared,
    /// An expression reads a name of no visible layer.
    UnknownName,
    /// A call names neither a workflow nor a function.
    UnknownCall,
    /// The arguments don't fit what is called.
    BadArgument,
    /// A limit is passed.
    TooMany,
    /// A form is used that isn't built yet.
    NotYet,
}

impl CheckKind {
    /// The name of the kind.
    pub fn name(self) -> &'static str
        ensures { result.now ≡ kind_name self }
    {
        match self {
            CheckKind::EmptySteps => "EmptySteps",
            CheckKind::DoubleStep => "DoubleStep",
            CheckKind::UnknownStep => "UnknownStep",
            CheckKind::JumpOutOfScope => "JumpOutOfScope",
            CheckKind::BreakOutsideLoop => "BreakOutsideLoop",
            CheckKind::ReturnInBranch => "ReturnInBranch",
            CheckKind::UndeclaredWrite => "UndeclaredWrite",
            CheckKind::UnknownShared => "UnknownShared",
            CheckKind::UnknownName => "UnknownName",
            CheckKind::UnknownCall => "UnknownCall",
            CheckKind::BadArgument => "BadArgument",
            CheckKind::TooMany => "TooMany",
            CheckKind::NotYet => "NotYet",
        }
    }
}

impl fmt::Display for CheckKind {
    ghost use Rattle.std.specs.Prelude.{Some};
    ghost use Rattle.wf_diagnostics.specs.Kinds.{kind_name};

    ghost output = { λ k. Some (kind_name k) };

    fn fmt<W: fmt::Write>(&self, f: &mut fmt::Formatter<W>) -> fmt::Result {
        let name = self.name();
        write!(f, "{name}")
    }
}
