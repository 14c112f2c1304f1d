//! Nodes.
ghost use Rattle.std.specs.Prelude.{◌≡◌, option_copied, option_map};
ghost use Rattle.wf_model.specs.NodeKinds.{block_view, handler_view, kind_by, side_by, is_left};
ghost use Rattle.wf_model.specs.Shapes.{Compiled};
ghost use Rattle.wf_model.specs.Table.{handler_list, kind_list, side_list};

use crate::codes::Codes;
use crate::shape::{NamedShapes, Shape};
use wf_ast::{Params, Policy, Texts};
use wf_name::Name;
use wf_value::Text;

/// Where a `next` leads: how many of the lists of steps that it may reach stay open, and the step that is next.
#[derive(Debug, Clone, Copy, PartialEq, Eq)]
pub struct Jump {
    pub keep: u32,
    pub to: u32,
}

/// A list of steps: their numbers, and how many lists of steps a jump from inside it may reach, itself among them. Such lists end at the
/// body of a loop, a branch and a workflow.
#[derive(Drop)]
pub struct Block {
    pub steps: Vec<u32>,
    pub depth: u32,
}

/// A workflow.
#[derive(Drop)]
pub struct FlowNode {
    pub params: Params,
    pub block: Block,
}

/// What a loop runs over.
#[derive(Drop)]
pub enum OverShape {
    List(Shape),
    Range(Shape, Shape),
}

/// A loop.
#[derive(Drop)]
pub struct LoopNode {
    pub value: Name,
    pub index: Option<Name>,
    pub over: OverShape,
    pub block: Block,
}

/// A call, with its arguments in the order of their names.
#[derive(Drop)]
pub struct CallNode {
    pub name: Text,
    pub args: NamedShapes,
    pub result: Option<Name>,
}

/// The steps that take an error, and the variable that holds it.
#[derive(Drop)]
pub struct ExceptNode {
    pub name: Name,
    pub block: Block,
}

/// A `try`. Its body is the node of this number.
#[derive(Drop)]
pub struct TryNode {
    pub body: u32,
    pub policy: Option<Policy>,
    pub except: Option<ExceptNode>,
}

/// What runs in parallel: branches by their numbers, or the iterations of a loop.
#[derive(Drop)]
pub enum WorkNode {
    Branches(Vec<u32>),
    Loop(LoopNode),
}

/// A parallel step.
#[derive(Drop)]
pub struct ParallelNode {
    pub shared: Texts,
    pub limit: Option<u32>,
    pub work: WorkNode,
}

/// An entry of an assign: the variable, how many places below it are written, the key as it stands in the source, and the value. The first
/// of the node's codes are those of the places.
#[derive(Drop)]
pub struct EntryNode {
    pub name: Name,
    pub places: u32,
    pub text: Text,
    pub value: Shape,
}

/// What a node is. `Nothing` to `Return` are bodies: those of steps and of arms, and what stands under a `try`.
#[derive(Drop)]
pub enum NodeKind {
    Flow(FlowNode),
    Nothing,
    /// The numbers of the entries.
    Assign(Vec<u32>),
    Call(CallNode),
    /// The numbers of the arms. An arm's body has the number behind the arm's.
    Switch(Vec<u32>),
    For(LoopNode),
    Parallel(ParallelNode),
    Block(Block),
    Try(TryNode),
    Raise(Shape),
    Return(Shape),
    /// The condition of an arm.
    Arm(Shape),
    Entry(EntryNode),
    /// The steps of a branch.
    Branch(Block),
}

/// A node of a program.
#[derive(Drop)]
pub struct Node {
    pub kind: NodeKind,
    /// Its compiled expressions.
    pub codes: Codes,
    /// The name of a workflow, a step or a branch. Other nodes have the empty one.
    pub name: Text,
    /// What is next behind a body, where the source says it: a step of a list around, or `end`, `continue` or `break`.
    pub next: Option<Text>,
    /// Where `next` leads, if it names a step that a jump may reach.
    pub jump: Option<Jump>,
    /// Whose list of steps it stands in, if a jump from it may reach one.
    pub owner: Option<u32>,
}

impl NodeKind {
    /// The list of steps that a node of this kind owns.
    pub fn block(&self) -> Option<&Block>
        ensures { (cs : Compiled) → option_map block_view (option_copied result)
            ≡ kind_list (kind_by cs self.now) }
    {
        match self {
            NodeKind::Flow(flow) => Some(&flow.block),
            NodeKind::Nothing => None,
            NodeKind::Assign(_) => None,
            NodeKind::Call(_) => None,
            NodeKind::Switch(_) => None,
            NodeKind::For(repeated) => Some(&repeated.block),
            NodeKind::Parallel(parallel) => parallel.work.block(),
            NodeKind::Block(block) => Some(block),
            NodeKind::Try(tried) => tried.block(),
            NodeKind::Raise(_) => None,
            NodeKind::Return(_) => None,
            NodeKind::Arm(_) => None,
            NodeKind::Entry(_) => None,
            NodeKind::Branch(block) => Some(block),
        }
    }

    /// Whether a jump leads out of that list: it leads out of a block and of the steps that take an error.
    pub fn is_left(&self) -> bool
        ensures { (cs : Compiled) → result ≡ is_left (kind_by cs self.now) }
    {
        match self {
            NodeKind::Flow(_) => false,
            NodeKind::Nothing => false,
            NodeKind::Assign(_) => false,
            NodeKind::Call(_) => false,
            NodeKind::Switch(_) => false,
            NodeKind::For(_) => false,
            NodeKind::Parallel(_) => false,
            NodeKind::Block(_) => true,
            NodeKind::Try(_) => true,
            NodeKind::Raise(_) => false,
            NodeKind::Return(_) => false,
            NodeKind::Arm(_) => false,
            NodeKind::Entry(_) => false,
            NodeKind::Branch(_) => false,
        }
    }
}

impl WorkNode {
    /// The list of steps of a parallel loop.
    fn block(&self) -> Option<&Block>
        ensures { (cs : Compiled) → option_map block_view (option_copied result)
            ≡ side_list (side_by cs self.now) }
    {
        match self {
            WorkNode::Branches(_) => None,
            WorkNode::Loop(repeated) => Some(&repeated.block),
        }
    }
}

impl TryNode {
    /// The list of the steps that take an error.
    fn block(&self) -> Option<&Block>
        ensures { option_map block_view (option_copied result)
            ≡ handler_list (handler_view self.now.except) }
    {
        match &self.except {
            None => None,
            Some(except) => Some(&except.block),
        }
    }
}
