//! Steps and what they do.
ghost use Rattle.std.specs.Prelude.{◌≡◌, [], ◌∷◌, ◌++◌, IfOk, is_ok, if◌then◌else◌, map};
ghost use Rattle.wf_ast.specs.View.{arm_list, arm_view, arms_view, branch_list, branch_view, branches_view, step_list, step_view, steps_view};

use crate::entry::Entries;
use crate::grow::add;
use crate::policy::Policy;
use crate::template::{NamedTemplates, Template};
use crate::texts::Texts;
use std::alloc::Global;
use wf_value::{OutOfMemory, Text};

/// A call of a workflow or a connector, and where its result goes.
#[derive(Drop)]
pub struct CallBody {
    pub name: Text,
    pub args: NamedTemplates,
    pub result: Option<Text>,
}

/// What a loop runs over: the items of a list, or the whole numbers of a range with both ends.
#[derive(Drop)]
pub enum Over {
    List(Template),
    Range(Template, Template),
}

/// A step.
#[cycle(body)]
#[derive(Drop)]
pub struct Step {
    pub name: Text,
    pub body: Body,
    pub next: Option<Text>,
}

/// Steps in their order.
#[cycle(body)]
#[derive(Drop)]
pub struct StepList {
    pub(crate) items: Vec<Step>,
}

impl StepList {
    /// Makes a list with no items.
    pub fn new(alloc: Global) -> Result<StepList, OutOfMemory>
        ensures { IfOk result (λ list. steps_view list ≡ []) }
    {
        Ok(StepList {
            items: Vec::new(alloc),
        })
    }

    /// Adds an item at the end. Without memory the list stays as it was.
    pub fn push(&mut self, item: Step) -> Result<(), OutOfMemory>
        ensures { steps_view self.new ≡
            (if is_ok result then steps_view self.old
            ++ step_view item ∷ [] else steps_view self.old) }
    {
        add(&mut self.items, item)
    }

    /// Lends the items, in their order.
    pub fn items(&self) -> &[Step]
        ensures items { result.now ≡ step_list self.now }
        ensures view { map step_view result.now ≡ steps_view self.now }
    {
        self.items.as_slice()
    }
}

/// What a step does.
#[cycle(body)]
pub enum Body {
    Nothing,
    Assign(Entries),
    Call(CallBody),
    Switch(Arms),
    For(LoopBody),
    Parallel(ParallelBody),
    Block(StepList),
    Try(TryBody),
    Raise(Template),
    Return(Template),
}

// Written, and not derived: it is one call wherever a body is let go.
impl Drop for Body {
    #[cycle(body)]
    fn drop(self) {
        match self {
            Body::Nothing | Body::Raise(_) | Body::Return(_) => {}
            Body::Assign(_) | Body::Call(_) | Body::For(_) | Body::Try(_) => {}
            Body::Switch(_) | Body::Parallel(_) | Body::Block(_) => {}
        }
    }
}

/// An arm of a switch.
#[cycle(body)]
#[derive(Drop)]
pub struct Arm {
    pub condition: Template,
    pub body: Body,
    pub next: Option<Text>,
}

/// The arms of a switch, in their order.
#[cycle(body)]
#[derive(Drop)]
pub struct Arms {
    pub(crate) items: Vec<Arm>,
}

impl Arms {
    /// Makes a list with no items.
    pub fn new(alloc: Global) -> Result<Arms, OutOfMemory>
        ensures { IfOk result (λ list. arms_view list ≡ []) }
    {
        Ok(Arms {
            items: Vec::new(alloc),
        })
    }

    /// Adds an item at the end. Without memory the list stays as it was.
    pub fn push(&mut self, item: Arm) -> Result<(), OutOfMemory>
        ensures { arms_view self.new ≡
            (if is_ok result then arms_view self.old
            ++ arm_view item ∷ [] else arms_view self.old) }
    {
        add(&mut self.items, item)
    }

    /// Lends the items, in their order.
    pub fn items(&self) -> &[Arm]
        ensures items { result.now ≡ arm_list self.now }
        ensures view { map arm_view result.now ≡ arms_view self.now }
    {
        self.items.as_slice()
    }
}

/// A loop.
#[cycle(body)]
pub struct LoopBody {
    pub value: Text,
    pub index: Option<Text>,
    pub over: Over,
    pub steps: StepList,
}

// Written, and not derived: it is one call wherever a loop is let go.
impl Drop for LoopBody {
    #[cycle(body)]
    fn drop(self) {
        let LoopBody {
            value: _,
            index: _,
            over: _,
            steps: _,
        } = self;
    }
}

/// Branches or iterations that run at the same time, with the limit on how many at once, where there is one.
#[cycle(body)]
pub struct ParallelBody {
    pub shared: Texts,
    pub limit: Option<u32>,
    pub work: Work,
}

// Written, and not derived: it is one call wherever a parallel step is let go.
impl Drop for ParallelBody {
    #[cycle(body)]
    fn drop(self) {
        let ParallelBody {
            shared: _,
            limit: _,
            work: _,
        } = self;
    }
}

/// What runs in parallel.
#[cycle(body)]
#[derive(Drop)]
pub enum Work {
    Branches(Branches),
    Loop(LoopBody),
}

/// A branch of a parallel step.
#[cycle(body)]
#[derive(Drop)]
pub struct Branch {
    pub name: Text,
    pub steps: StepList,
}

/// The branches of a parallel step, in their order.
#[cycle(body)]
#[derive(Drop)]
pub struct Branches {
    pub(crate) items: Vec<Branch>,
}

impl Branches {
    /// Makes a list with no items.
    pub fn new(alloc: Global) -> Result<Branches, OutOfMemory>
        ensures { IfOk result (λ list. branches_view list ≡ []) }
    {
        Ok(Branches {
            items: Vec::new(alloc),
        })
    }

    /// Adds an item at the end. Without memory the list stays as it was.
    pub fn push(&mut self, item: Branch) -> Result<(), OutOfMemory>
        ensures { branches_view self.new
            ≡ (if is_ok result then branches_view self.old
            ++ branch_view item ∷ [] else branches_view self.old) }
    {
        add(&mut self.items, item)
    }

    /// Lends the items, in their order.
    pub fn items(&self) -> &[Branch]
        ensures items { result.now ≡ branch_list self.now }
        ensures view { map branch_view result.now ≡ branches_view self.now }
    {
        self.items.as_slice()
    }
}

/// A body that may be tried again, and the steps that take its error. The body is a call or a block.
#[cycle(body)]
#[derive(Drop)]
pub struct TryBody {
    pub body: Box<Body>,
    pub policy: Option<Policy>,
    pub except: Option<Except>,
}

/// The steps that take an error, and the variable that holds it.
#[cycle(body)]
pub struct Except {
    pub name: Text,
    pub steps: StepList,
}

// Written, and not derived: it is one call wherever a handler is let go.
impl Drop for Except {
    #[cycle(body)]
    fn drop(self) {
        let Except { name: _, steps: _ } = self;
    }
}
