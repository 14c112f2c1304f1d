// The nodes of a program in preorder, but for where they jump.
ghost use Rattle.std.specs.Prelude.{◌≡◌, IfOk, ℕ, suc, List, [], ◌∷◌, length, map};
ghost use Rattle.wf_ast.specs.Tree as t;
ghost use Rattle.wf_ast.specs.View.{arm_view, body_view, branch_view, call_view, except_option_view, flow_view, loop_view, over_view, policy_option_view, steps_in, try_view, work_view};
ghost use Rattle.wf_model.specs.Compiles.{Compiles, code_list};
ghost use Rattle.wf_model.specs.NodeKinds as kind;
ghost use Rattle.wf_model.specs.NodeKinds.{block_view, call_by, handler_view, kind_by, listed, loop_by, over_by, side_by};
ghost use Rattle.wf_table.specs.Made.{Adds, StandsIn, arm_numbers, body_for, branch_numbers, flow_numbers, handler_for, loop_for, side_for, step_numbers, try_for};
ghost use Rattle.wf_model.specs.Spots.{BranchAt, arms_spots, body_spots, branches_spots, except_spots, flow_spots, flows_spots, loop_spots, spot, step_spots, steps_spots, try_spots, work_spots};

use crate::around::Here;
use crate::copies;
use crate::growing::{arm, entries, hold};
use std::alloc::Global;
use wf_ast::{Arm, Body, Branch, CallBody, Except, Flow, LoopBody, Over, StepList, TryBody, Work};
use wf_model::grow::{add, put};
use wf_model::{
    Block, CallNode, Codes, ExceptNode, FlowNode, LoopNode, Node, NodeKind, OverShape,
    ParallelNode, TryNode, WorkNode, named_of, shape_of,
};
use wf_name::Name;
use wf_value::{OutOfMemory, Text};

/// The nodes of workflows, and the workflows' numbers.
pub(crate) fn flows(
    alloc: Global,
    nodes: &mut Vec<Node>,
    flows: &[Flow],
) -> Result<Vec<u32>, OutOfMemory>
    ensures numbers { IfOk result (λ v. v.items
        ≡ flow_numbers (map flow_view flows.now) (length nodes.old.items)) }
    ensures adds { IfOk result (λ v. Adds nodes.old.items nodes.new.items
        (flows_spots (map flow_view flows.now) (length nodes.old.items))) }
{
    let mut numbers = Vec::new(alloc);
    for flow in flows {
        add(&mut numbers, flow_node(alloc, nodes, flow)?)?;
    }
    Ok(numbers)
}

/// The nodes of a workflow, and its number.
fn flow_node(alloc: Global, nodes: &mut Vec<Node>, flow: &Flow) -> Result<u32, OutOfMemory>
    ensures number { IfOk result (λ n. n ≡ length nodes.old.items) }
    ensures adds { IfOk result (λ n. Adds nodes.old.items nodes.new.items
        (flow_spots (flow_view flow.now) (length nodes.old.items))) }
{
    let number = hold(alloc, nodes)?;
    let name = flow.name.copy()?;
    let params = copies::params(alloc, &flow.params)?;
    let block = block(alloc, nodes, Here::alone(number), &flow.steps)?;
    let node = Node {
        kind: NodeKind::Flow(FlowNode { params, block }),
        codes: Codes::new(alloc),
        name,
        next: None,
        jump: None,
        owner: None,
    };
    put(nodes, number, node);
    Ok(number)
}

/// The nodes of a list of steps, which stands in these lists, itself among them.
#[cycle(build)]
fn block(
    alloc: Global,
    nodes: &mut Vec<Node>,
    inner: Here,
    steps: &StepList,
) -> Result<Block, OutOfMemory>
    ensures { IfOk result (λ b. (os : List ℕ) → StandsIn inner os
        → (block_view b ≡ listed (step_numbers (steps_in steps.now) (length nodes.old.items))
        (length os)) × Adds nodes.old.items nodes.new.items
        (steps_spots (steps_in steps.now) (length nodes.old.items) os)) }
{
    let mut numbers = Vec::new(alloc);
    for step in steps.items() {
        let name = step.name.copy()?;
        let next = copies::text(&step.next)?;
        add(
            &mut numbers,
            body(alloc, nodes, inner, name, &step.body, next)?,
        )?;
    }
    Ok(Block {
        steps: numbers,
        depth: inner.depth,
    })
}

/// The nodes of a body, and its number.
#[cycle(build)]
fn body(
    alloc: Global,
    nodes: &mut Vec<Node>,
    here: Here,
    name: Text,
    body: &Body,
    next: Option<Text>,
) -> Result<u32, OutOfMemory>
    ensures number { IfOk result (λ n. n ≡ length nodes.old.items) }
    ensures adds { IfOk result (λ n. (os : List ℕ) → StandsIn here os
        → Adds nodes.old.items nodes.new.items
        (step_spots (t.step name (body_view body.now) next) (length nodes.old.items) os)) }
{
    let number = hold(alloc, nodes)?;
    let mut codes = Codes::new(alloc);
    let kind = kind(alloc, nodes, here, number, body, &mut codes)?;
    let node = Node {
        kind,
        codes,
        name,
        next,
        jump: None,
        owner: here.owner,
    };
    put(nodes, number, node);
    Ok(number)
}

/// What the body of this number is, and the nodes that it holds.
#[cycle(build)]
fn kind(
    alloc: Global,
    nodes: &mut Vec<Node>,
    here: Here,
    number: u32,
    body: &Body,
    codes: &mut Codes,
) -> Result<NodeKind, OutOfMemory>
    ensures { IfOk result (λ k. (os : List ℕ) → StandsIn here os
        → suc number ≡ length nodes.old.items
        → Compiles (code_list codes.old) (code_list codes.new) (λ cs. kind_by cs k)
        (body_for number (length os) (body_view body.now))
        × Adds nodes.old.items nodes.new.items (body_spots (body_view body.now) number os)) }
{
    match body {
        Body::Nothing => Ok(NodeKind::Nothing),
        Body::Assign(list) => Ok(NodeKind::Assign(entries(alloc, nodes, here, list.items())?)),
        Body::Call(call) => Ok(NodeKind::Call(call_node(alloc, call, codes)?)),
        Body::Switch(list) => Ok(NodeKind::Switch(arms(alloc, nodes, here, list.items())?)),
        Body::For(repeated) => Ok(NodeKind::For(loop_node(alloc, nodes, number, repeated, codes)?)),
        Body::Parallel(parallel) => Ok(NodeKind::Parallel(ParallelNode {
            shared: copies::texts(alloc, &parallel.shared)?,
            limit: parallel.limit,
            work: work(alloc, nodes, here, number, &parallel.work, codes)?,
        })),
        Body::Block(list) => Ok(NodeKind::Block(block(alloc, nodes, here.inside(number)?, list)?)),
        Body::Try(tried) => Ok(NodeKind::Try(try_node(alloc, nodes, here, number, tried)?)),
        Body::Raise(template) => Ok(NodeKind::Raise(shape_of(alloc, template, codes)?)),
        Body::Return(template) => Ok(NodeKind::Return(shape_of(alloc, template, codes)?)),
    }
}

/// The nodes of arms, and the arms' numbers.
#[cycle(build)]
fn arms(
    alloc: Global,
    nodes: &mut Vec<Node>,
    here: Here,
    arms: &[Arm],
) -> Result<Vec<u32>, OutOfMemory>
    ensures { IfOk result (λ v. (os : List ℕ) → StandsIn here os
        → (v.items ≡ arm_numbers (t.arms (map arm_view arms.now)) (length nodes.old.items))
        × Adds nodes.old.items nodes.new.items
        (arms_spots (t.arms (map arm_view arms.now)) (length nodes.old.items) os)) }
{
    let mut numbers = Vec::new(alloc);
    for item in arms {
        add(&mut numbers, arm(alloc, nodes, here, &item.condition)?)?;
        let name = Text::new(alloc, "")?;
        let next = copies::text(&item.next)?;
        body(alloc, nodes, here, name, &item.body, next)?;
    }
    Ok(numbers)
}

/// What the loop of this number is, and the nodes that it holds.
#[cycle(build)]
fn loop_node(
    alloc: Global,
    nodes: &mut Vec<Node>,
    number: u32,
    repeated: &LoopBody,
    codes: &mut Codes,
) -> Result<LoopNode, OutOfMemory>
    ensures { IfOk result (λ l. suc number ≡ length nodes.old.items
        → Compiles (code_list codes.old) (code_list codes.new) (λ cs. loop_by cs l)
        (loop_for number (loop_view repeated.now))
        × Adds nodes.old.items nodes.new.items (loop_spots (loop_view repeated.now) number)) }
{
    let value = Name::of(repeated.value.copy()?);
    let index = copies::name(&repeated.index)?;
    let over = over(alloc, &repeated.over, codes)?;
    let block = block(alloc, nodes, Here::alone(number), &repeated.steps)?;
    Ok(LoopNode {
        value,
        index,
        over,
        block,
    })
}

/// What runs in the parallel step of this number, and the nodes that it holds.
#[cycle(build)]
fn work(
    alloc: Global,
    nodes: &mut Vec<Node>,
    here: Here,
    number: u32,
    work: &Work,
    codes: &mut Codes,
) -> Result<WorkNode, OutOfMemory>
    ensures { IfOk result (λ w. (os : List ℕ) → StandsIn here os
        → suc number ≡ length nodes.old.items
        → Compiles (code_list codes.old) (code_list codes.new) (λ cs. side_by cs w)
        (side_for number (work_view work.now))
        × Adds nodes.old.items nodes.new.items (work_spots (work_view work.now) number os)) }
{
    match work {
        Work::Branches(list) => Ok(WorkNode::Branches(branches(alloc, nodes, here, list.items())?)),
        Work::Loop(repeated) => Ok(WorkNode::Loop(loop_node(
            alloc, nodes, number, repeated, codes,
        )?)),
    }
}

/// The nodes of branches, and the branches' numbers.
#[cycle(build)]
fn branches(
    alloc: Global,
    nodes: &mut Vec<Node>,
    here: Here,
    branches: &[Branch],
) -> Result<Vec<u32>, OutOfMemory>
    ensures { IfOk result (λ v. (os : List ℕ) → StandsIn here os
        → (v.items ≡ branch_numbers (t.branches (map branch_view branches.now))
        (length nodes.old.items))
        × Adds nodes.old.items nodes.new.items
        (branches_spots (t.branches (map branch_view branches.now)) (length nodes.old.items) os)) }
{
    let mut numbers = Vec::new(alloc);
    for item in branches {
        add(&mut numbers, branch(alloc, nodes, here, item)?)?;
    }
    Ok(numbers)
}

/// The nodes of a branch, and its number.
#[cycle(build)]
fn branch(
    alloc: Global,
    nodes: &mut Vec<Node>,
    here: Here,
    branch: &Branch,
) -> Result<u32, OutOfMemory>
    ensures number { IfOk result (λ n. n ≡ length nodes.old.items) }
    ensures adds { IfOk result (λ n. (os : List ℕ) → StandsIn here os
        → Adds nodes.old.items nodes.new.items
        (spot (BranchAt (branch_view branch.now).0 (branch_view branch.now).1) os ∷ steps_spots
        (branch_view branch.now).1 (suc (length nodes.old.items)) (length nodes.old.items ∷ []))) }
{
    let number = hold(alloc, nodes)?;
    let name = branch.name.copy()?;
    let block = block(alloc, nodes, Here::alone(number), &branch.steps)?;
    let node = Node {
        kind: NodeKind::Branch(block),
        codes: Codes::new(alloc),
        name,
        next: None,
        jump: None,
        owner: here.owner,
    };
    put(nodes, number, node);
    Ok(number)
}

/// What the `try` of this number is, and the nodes that it holds.
#[cycle(build)]
fn try_node(
    alloc: Global,
    nodes: &mut Vec<Node>,
    here: Here,
    number: u32,
    tried: &TryBody,
) -> Result<TryNode, OutOfMemory>
    ensures { IfOk result (λ x. (os : List ℕ) → StandsIn here os
        → suc number ≡ length nodes.old.items
        → (kind.Try x.body (policy_option_view x.policy) (handler_view x.except)
        ≡ try_for number (length os) (try_view tried.now))
        × Adds nodes.old.items nodes.new.items (try_spots (try_view tried.now) number os)) }
{
    let name = Text::new(alloc, "")?;
    let policy = copies::policy(&tried.policy)?;
    let inner = here.inside(number)?;
    let under = body(alloc, nodes, here, name, &tried.body, None)?;
    let except = handler(alloc, nodes, inner, &tried.except)?;
    Ok(TryNode {
        body: under,
        policy,
        except,
    })
}

/// The nodes of the steps that take an error, where there are any. They stand in these lists.
#[cycle(build)]
fn handler(
    alloc: Global,
    nodes: &mut Vec<Node>,
    inner: Here,
    except: &Option<Except>,
) -> Result<Option<ExceptNode>, OutOfMemory>
    ensures { IfOk result (λ x. (o : ℕ) (os : List ℕ) → StandsIn inner (o ∷ os)
        → (handler_view x ≡ handler_for (length nodes.old.items) (length os)
        (except_option_view except.now))
        × Adds nodes.old.items nodes.new.items
        (except_spots (except_option_view except.now) (length nodes.old.items) (o ∷ os))) }
{
    match except {
        None => Ok(None),
        Some(handler) => {
            let name = Name::of(handler.name.copy()?);
            let block = block(alloc, nodes, inner, &handler.steps)?;
            Ok(Some(ExceptNode { name, block }))
        }
    }
}

/// What a loop runs over.
fn over(alloc: Global, over: &Over, codes: &mut Codes) -> Result<OverShape, OutOfMemory>
    ensures { IfOk result (λ o. Compiles (code_list codes.old) (code_list codes.new)
        (λ cs. over_by cs o) (over_view over.now)) }
{
    match over {
        Over::List(items) => Ok(OverShape::List(shape_of(alloc, items, codes)?)),
        Over::Range(low, high) => {
            let first = shape_of(alloc, low, codes)?;
            let last = shape_of(alloc, high, codes)?;
            Ok(OverShape::Range(first, last))
        }
    }
}

/// What a node has of a call.
fn call_node(alloc: Global, call: &CallBody, codes: &mut Codes) -> Result<CallNode, OutOfMemory>
    ensures { IfOk result (λ x. Compiles (code_list codes.old) (code_list codes.new)
        (λ cs. call_by cs x) (call_view call.now)) }
{
    let args = named_of(alloc, call.args.items(), codes)?;
    Ok(CallNode {
        name: call.name.copy()?,
        args,
        result: copies::name(&call.result)?,
    })
}
