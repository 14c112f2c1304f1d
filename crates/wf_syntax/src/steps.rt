// Steps and what they do.
ghost use Rattle.std.specs.Prelude.{◌≡◌, codes, option_map, MatchResult};
ghost use Rattle.wf_ast.specs.View.{arm_view, arms_in, body_view, branch_view, branches_in, except_option_view, except_view, loop_view, over_view, step_view, steps_in, template_view, work_view};
ghost use Rattle.wf_syntax_rules.specs.Meaning.{AreSteps, IsExcept, IsStep, Maybe};
ghost use Rattle.wf_syntax_rules.specs.Rules as rules;
ghost use Rattle.wf_syntax_rules.specs.Rules.{at};
ghost use Rattle.wf_syntax.specs.Answers.{Fails, FailsAmong, IsSoundAnd, AreSoundAnd};
ghost use Rattle.wf_syntax.specs.Forms.{AreArms, AreBlockParts, AreBranches, AreLoopParts, ArePartsOf, IsArm, IsBlock, IsBranch, IsHandler, IsLoopMap, IsParallelMap, IsStepBody, IsTriedMap, block_part_keys, ends_view, loop_of, loop_part_keys, over_of, parallel_view, row, work_of};
ghost use Rattle.wf_tree.specs.Plain.{plain_tree};
ghost use Rattle.wf_tree.specs.Trees.{pairs_of};

use crate::faults::{arm_fault, loop_fault, map_fault, parallel_fault, step_fault, try_fault};
use crate::parts::{BlockParts, LoopParts, Parts, call_parts, value_parts};
use crate::stop::Stop;
use crate::values::{Ends, arguments_at, range_at, value_at};
use crate::words::{limit_at, name_at, names_at, owned, policy_word_at, text_at};
use std::alloc::Global;
use wf_ast::{
    Arm, Arms, Body, Branch, Branches, CallBody, Except, LoopBody, Over, ParallelBody, Step,
    StepList, Template, Work,
};
use wf_syntax_rules::SyntaxKind;
use wf_syntax_words::{field, is_step_name, single};
use wf_tree::{Tree, TreeMap};
use wf_value::Text;

/// What a loop runs over: the range, where it is there, or else the list.
fn over(list: Option<Template>, range: Option<Ends>) -> Option<Over>
    ensures { option_map over_view result
        ≡ over_of (option_map template_view list) (option_map ends_view range) }
{
    match range {
        Some((first, last)) => Some(Over::Range(first, last)),
        None => match list {
            Some(list) => Some(Over::List(list)),
            None => None,
        },
    }
}

/// A loop of its parts, where those are there that must be.
fn loop_of(
    list: Option<Template>,
    index: Option<Text>,
    range: Option<Ends>,
    steps: Option<StepList>,
    value: Option<Text>,
) -> Option<LoopBody>
    ensures { option_map loop_view result
        ≡ loop_of (over_of (option_map template_view list) (option_map ends_view range)) index
        (option_map steps_in steps) value }
{
    let Some(over) = over(list, range) else {
        return None;
    };
    let (Some(steps), Some(value)) = (steps, value) else {
        drop(over);
        return None;
    };
    Some(LoopBody {
        value,
        index,
        over,
        steps,
    })
}

/// What runs in parallel: the loop, where it is there, or else the branches.
fn work(branches: Option<Branches>, repeated: Option<LoopBody>) -> Option<Work>
    ensures { option_map work_view result
        ≡ work_of (option_map branches_in branches) (option_map loop_view repeated) }
{
    match repeated {
        Some(repeated) => Some(Work::Loop(repeated)),
        None => match branches {
            Some(branches) => Some(Work::Branches(branches)),
            None => None,
        },
    }
}

/// Steps in their order.
#[cycle(steps)]
pub(crate) fn steps(alloc: Global, tree: &Tree) -> Result<StepList, Stop>
    ensures { MatchResult result (λ ss. IsSoundAnd rules.Steps (plain_tree tree.now)
        (AreSteps (steps_in ss) (plain_tree tree.now)))
        (λ stop. Fails rules.Steps (plain_tree tree.now) stop) }
{
    let Tree::List(items) = tree else {
        return Err(Stop::here(alloc, SyntaxKind::WrongKind));
    };
    let items = items.items();
    let mut made = StepList::new(alloc)?;
    'each: for index in 0..items.len() {
        match step(alloc, &items[index]) {
            Ok(step) => made.push(step)?,
            Err(stop) => return Err(stop.at_index(index)),
        }
    }
    Ok(made)
}

/// The steps at a key, if they are there.
#[cycle(steps)]
pub(crate) fn steps_at(alloc: Global, fields: &TreeMap, key: &str) -> Result<Option<StepList>, Stop>
    ensures { MatchResult result (λ o. AreSoundAnd (at key.now rules.Steps (pairs_of fields.now))
        (Maybe (option_map steps_in o) key.now (pairs_of fields.now) AreSteps))
        (λ stop. FailsAmong (at key.now rules.Steps (pairs_of fields.now)) stop) }
{
    match field(fields, key) {
        None => Ok(None),
        Some(tree) => match steps(alloc, tree) {
            Ok(steps) => Ok(Some(steps)),
            Err(stop) => Err(stop.at_key(alloc, key)),
        },
    }
}

/// A map of one, from a step's name to what the step does.
#[cycle(steps)]
fn step(alloc: Global, tree: &Tree) -> Result<Step, Stop>
    ensures { MatchResult result (λ s. IsSoundAnd rules.Step (plain_tree tree.now)
        (IsStep (step_view s) (plain_tree tree.now)))
        (λ stop. Fails rules.Step (plain_tree tree.now) stop) }
{
    let Some((name, tree)) = single(tree) else {
        return Err(Stop::here(alloc, SyntaxKind::NotAStep));
    };
    if !is_step_name(name) {
        return Err(Stop::here(alloc, SyntaxKind::NotAStep));
    }
    let held = owned(alloc, name)?;
    match step_body(alloc, tree) {
        Ok((body, next)) => Ok(Step {
            name: held,
            body,
            next,
        }),
        Err(stop) => Err(stop.at_key(alloc, name)),
    }
}

/// What a step does, and where it goes on.
#[cycle(steps)]
fn step_body(alloc: Global, tree: &Tree) -> Result<(Body, Option<Text>), Stop>
    ensures { MatchResult result (λ r. IsSoundAnd rules.Body (plain_tree tree.now)
        (IsStepBody (body_view r.0) r.1 (plain_tree tree.now)))
        (λ stop. Fails rules.Body (plain_tree tree.now) stop) }
{
    let Tree::Map(fields) = tree else {
        return Err(Stop::here(alloc, SyntaxKind::WrongKind));
    };
    if let Some(kind) = step_fault(fields) {
        return Err(Stop::here(alloc, kind));
    }
    let (_, body, next) = parts(alloc, fields)?.body(alloc)?;
    Ok((body, next))
}

/// What stands in the fields of a step or an arm, the fields in the order of their bytes.
#[cycle(steps)]
fn parts(alloc: Global, fields: &TreeMap) -> Result<Parts, Stop>
    ensures { MatchResult result (λ p. AreSoundAnd (rules.body_parts (pairs_of fields.now))
        (ArePartsOf p (pairs_of fields.now)))
        (λ stop. FailsAmong (rules.body_parts (pairs_of fields.now)) stop) }
{
    Ok(Parts {
        calls: call_parts(alloc, fields)?,
        loops: loop_parts(alloc, fields)?,
        values: value_parts(alloc, fields)?,
        blocks: block_parts(alloc, fields)?,
    })
}

/// What stands in the fields from `except` to `parallel`.
#[cycle(steps)]
fn loop_parts(alloc: Global, fields: &TreeMap) -> Result<LoopParts, Stop>
    ensures { MatchResult result (λ p. AreSoundAnd (row (pairs_of fields.now) loop_part_keys)
        (AreLoopParts p (pairs_of fields.now)))
        (λ stop. FailsAmong (row (pairs_of fields.now) loop_part_keys) stop) }
{
    Ok(LoopParts {
        except: except_at(alloc, fields)?,
        repeated: loop_at(alloc, fields, "for")?,
        next: text_at(alloc, fields, "next")?,
        parallel: parallel_at(alloc, fields, "parallel")?,
    })
}

/// What stands in the fields from `steps` to `try`.
#[cycle(steps)]
fn block_parts(alloc: Global, fields: &TreeMap) -> Result<BlockParts, Stop>
    ensures { MatchResult result (λ p. AreSoundAnd (row (pairs_of fields.now) block_part_keys)
        (AreBlockParts p (pairs_of fields.now)))
        (λ stop. FailsAmong (row (pairs_of fields.now) block_part_keys) stop) }
{
    Ok(BlockParts {
        steps: steps_at(alloc, fields, "steps")?,
        switch: arms_at(alloc, fields, "switch")?,
        tried: try_at(alloc, fields, "try")?,
    })
}

/// The arms of a `switch`.
#[cycle(steps)]
fn arms(alloc: Global, tree: &Tree) -> Result<Arms, Stop>
    ensures { MatchResult result (λ all. IsSoundAnd rules.Arms (plain_tree tree.now)
        (AreArms (arms_in all) (plain_tree tree.now)))
        (λ stop. Fails rules.Arms (plain_tree tree.now) stop) }
{
    let Tree::List(items) = tree else {
        return Err(Stop::here(alloc, SyntaxKind::WrongKind));
    };
    let items = items.items();
    let mut made = Arms::new(alloc)?;
    'each: for index in 0..items.len() {
        match arm(alloc, &items[index]) {
            Ok(arm) => made.push(arm)?,
            Err(stop) => return Err(stop.at_index(index)),
        }
    }
    Ok(made)
}

/// The arms at a key, if they are there.
#[cycle(steps)]
fn arms_at(alloc: Global, fields: &TreeMap, key: &str) -> Result<Option<Arms>, Stop>
    ensures { MatchResult result (λ o. AreSoundAnd (at key.now rules.Arms (pairs_of fields.now))
        (Maybe (option_map arms_in o) key.now (pairs_of fields.now) AreArms))
        (λ stop. FailsAmong (at key.now rules.Arms (pairs_of fields.now)) stop) }
{
    match field(fields, key) {
        None => Ok(None),
        Some(tree) => match arms(alloc, tree) {
            Ok(arms) => Ok(Some(arms)),
            Err(stop) => Err(stop.at_key(alloc, key)),
        },
    }
}

/// A condition, what is done where it holds, and where it goes on then.
#[cycle(steps)]
fn arm(alloc: Global, tree: &Tree) -> Result<Arm, Stop>
    ensures { MatchResult result (λ a. IsSoundAnd rules.Arm (plain_tree tree.now)
        (IsArm (arm_view a) (plain_tree tree.now)))
        (λ stop. Fails rules.Arm (plain_tree tree.now) stop) }
{
    let Tree::Map(fields) = tree else {
        return Err(Stop::here(alloc, SyntaxKind::WrongKind));
    };
    if let Some(kind) = arm_fault(fields) {
        return Err(Stop::here(alloc, kind));
    }
    let (condition, body, next) = parts(alloc, fields)?.body(alloc)?;
    match condition {
        Some(condition) => Ok(Arm {
            condition,
            body,
            next,
        }),
        None => {
            drop(body);
            Err(Stop::here(alloc, SyntaxKind::MissingField))
        }
    }
}

/// A loop over the items of a list, or over a range.
#[cycle(steps)]
fn loop_body(alloc: Global, tree: &Tree) -> Result<LoopBody, Stop>
    ensures { MatchResult result (λ l. IsSoundAnd rules.Loop (plain_tree tree.now)
        (IsLoopMap (loop_view l) (plain_tree tree.now)))
        (λ stop. Fails rules.Loop (plain_tree tree.now) stop) }
{
    let Tree::Map(fields) = tree else {
        return Err(Stop::here(alloc, SyntaxKind::WrongKind));
    };
    if let Some(kind) = loop_fault(fields) {
        return Err(Stop::here(alloc, kind));
    }
    let list = value_at(alloc, fields, "in")?;
    let index = name_at(alloc, fields, "index")?;
    let range = range_at(alloc, fields, "range")?;
    let steps = steps_at(alloc, fields, "steps")?;
    let value = name_at(alloc, fields, "value")?;
    match loop_of(list, index, range, steps, value) {
        Some(made) => Ok(made),
        None => Err(Stop::here(alloc, SyntaxKind::MissingField)),
    }
}

/// The loop at a key, if there is one.
#[cycle(steps)]
fn loop_at(alloc: Global, fields: &TreeMap, key: &str) -> Result<Option<LoopBody>, Stop>
    ensures { MatchResult result (λ o. AreSoundAnd (at key.now rules.Loop (pairs_of fields.now))
        (Maybe (option_map loop_view o) key.now (pairs_of fields.now) IsLoopMap))
        (λ stop. FailsAmong (at key.now rules.Loop (pairs_of fields.now)) stop) }
{
    match field(fields, key) {
        None => Ok(None),
        Some(tree) => match loop_body(alloc, tree) {
            Ok(repeated) => Ok(Some(repeated)),
            Err(stop) => Err(stop.at_key(alloc, key)),
        },
    }
}

/// Branches, or a loop, whose parts run at the same time.
#[cycle(steps)]
fn parallel(alloc: Global, tree: &Tree) -> Result<ParallelBody, Stop>
    ensures { MatchResult result (λ p. IsSoundAnd rules.Parallel (plain_tree tree.now)
        (IsParallelMap (parallel_view p) (plain_tree tree.now)))
        (λ stop. Fails rules.Parallel (plain_tree tree.now) stop) }
{
    let Tree::Map(fields) = tree else {
        return Err(Stop::here(alloc, SyntaxKind::WrongKind));
    };
    if let Some(kind) = parallel_fault(fields) {
        return Err(Stop::here(alloc, kind));
    }
    let branches = branches_at(alloc, fields, "branches")?;
    let limit = limit_at(alloc, fields, "concurrency_limit")?;
    policy_word_at(alloc, fields, "exception_policy")?;
    let repeated = loop_at(alloc, fields, "for")?;
    let shared = names_at(alloc, fields, "shared")?;
    match work(branches, repeated) {
        Some(work) => Ok(ParallelBody {
            shared,
            limit,
            work,
        }),
        None => Err(Stop::here(alloc, SyntaxKind::MissingField)),
    }
}

/// The parallel step at a key, if there is one.
#[cycle(steps)]
fn parallel_at(alloc: Global, fields: &TreeMap, key: &str) -> Result<Option<ParallelBody>, Stop>
    ensures { MatchResult result (λ o. AreSoundAnd (at key.now rules.Parallel (pairs_of fields.now))
        (Maybe (option_map parallel_view o) key.now (pairs_of fields.now) IsParallelMap))
        (λ stop. FailsAmong (at key.now rules.Parallel (pairs_of fields.now)) stop) }
{
    match field(fields, key) {
        None => Ok(None),
        Some(tree) => match parallel(alloc, tree) {
            Ok(parallel) => Ok(Some(parallel)),
            Err(stop) => Err(stop.at_key(alloc, key)),
        },
    }
}

/// The branches of a parallel step.
#[cycle(steps)]
fn branches(alloc: Global, tree: &Tree) -> Result<Branches, Stop>
    ensures { MatchResult result (λ bs. IsSoundAnd rules.Branches (plain_tree tree.now)
        (AreBranches (branches_in bs) (plain_tree tree.now)))
        (λ stop. Fails rules.Branches (plain_tree tree.now) stop) }
{
    let Tree::List(items) = tree else {
        return Err(Stop::here(alloc, SyntaxKind::WrongKind));
    };
    let items = items.items();
    let mut made = Branches::new(alloc)?;
    'each: for index in 0..items.len() {
        match branch(alloc, &items[index]) {
            Ok(branch) => made.push(branch)?,
            Err(stop) => return Err(stop.at_index(index)),
        }
    }
    Ok(made)
}

/// The branches at a key, if they are there.
#[cycle(steps)]
fn branches_at(alloc: Global, fields: &TreeMap, key: &str) -> Result<Option<Branches>, Stop>
    ensures { MatchResult result (λ o. AreSoundAnd (at key.now rules.Branches (pairs_of fields.now))
        (Maybe (option_map branches_in o) key.now (pairs_of fields.now) AreBranches))
        (λ stop. FailsAmong (at key.now rules.Branches (pairs_of fields.now)) stop) }
{
    match field(fields, key) {
        None => Ok(None),
        Some(tree) => match branches(alloc, tree) {
            Ok(branches) => Ok(Some(branches)),
            Err(stop) => Err(stop.at_key(alloc, key)),
        },
    }
}

/// A map of one, from a branch's name to its steps.
#[cycle(steps)]
fn branch(alloc: Global, tree: &Tree) -> Result<Branch, Stop>
    ensures { MatchResult result (λ b. IsSoundAnd rules.Branch (plain_tree tree.now)
        (IsBranch (branch_view b) (plain_tree tree.now)))
        (λ stop. Fails rules.Branch (plain_tree tree.now) stop) }
{
    let Some((name, tree)) = single(tree) else {
        return Err(Stop::here(alloc, SyntaxKind::NotAStep));
    };
    match block(alloc, tree) {
        Ok(steps) => Ok(Branch {
            name: owned(alloc, name)?,
            steps,
        }),
        Err(stop) => Err(stop.at_key(alloc, name)),
    }
}

/// A map of steps alone.
#[cycle(steps)]
fn block(alloc: Global, tree: &Tree) -> Result<StepList, Stop>
    ensures { MatchResult result (λ ss. IsSoundAnd rules.Block (plain_tree tree.now)
        (IsBlock (steps_in ss) (plain_tree tree.now)))
        (λ stop. Fails rules.Block (plain_tree tree.now) stop) }
{
    let Tree::Map(fields) = tree else {
        return Err(Stop::here(alloc, SyntaxKind::WrongKind));
    };
    if let Some(kind) = map_fault(fields, &["steps"], &[]) {
        return Err(Stop::here(alloc, kind));
    }
    match steps_at(alloc, fields, "steps")? {
        Some(steps) => Ok(steps),
        None => Err(Stop::here(alloc, SyntaxKind::MissingField)),
    }
}

/// What is tried: a call, or steps.
#[cycle(steps)]
fn tried(alloc: Global, tree: &Tree) -> Result<Body, Stop>
    ensures { MatchResult result (λ b. IsSoundAnd rules.Try (plain_tree tree.now)
        (IsTriedMap (body_view b) (plain_tree tree.now)))
        (λ stop. Fails rules.Try (plain_tree tree.now) stop) }
{
    let Tree::Map(fields) = tree else {
        return Err(Stop::here(alloc, SyntaxKind::WrongKind));
    };
    if let Some(kind) = try_fault(fields) {
        return Err(Stop::here(alloc, kind));
    }
    let args = arguments_at(alloc, fields, "args")?;
    let call = text_at(alloc, fields, "call")?;
    let result = name_at(alloc, fields, "result")?;
    let steps = steps_at(alloc, fields, "steps")?;
    match (call, steps) {
        (Some(name), _) => Ok(Body::Call(CallBody { name, args, result })),
        (None, Some(steps)) => Ok(Body::Block(steps)),
        (None, None) => Err(Stop::here(alloc, SyntaxKind::MissingField)),
    }
}

/// What is tried at a key, if it is there.
#[cycle(steps)]
fn try_at(alloc: Global, fields: &TreeMap, key: &str) -> Result<Option<Body>, Stop>
    ensures { MatchResult result (λ o. AreSoundAnd (at key.now rules.Try (pairs_of fields.now))
        (Maybe (option_map body_view o) key.now (pairs_of fields.now) IsTriedMap))
        (λ stop. FailsAmong (at key.now rules.Try (pairs_of fields.now)) stop) }
{
    match field(fields, key) {
        None => Ok(None),
        Some(tree) => match tried(alloc, tree) {
            Ok(body) => Ok(Some(body)),
            Err(stop) => Err(stop.at_key(alloc, key)),
        },
    }
}

/// The steps that take an error, and the name that it has there.
#[cycle(steps)]
fn except(alloc: Global, tree: &Tree) -> Result<Except, Stop>
    ensures { MatchResult result (λ x. IsSoundAnd rules.Except (plain_tree tree.now)
        (IsHandler (except_view x) (plain_tree tree.now)))
        (λ stop. Fails rules.Except (plain_tree tree.now) stop) }
{
    let Tree::Map(fields) = tree else {
        return Err(Stop::here(alloc, SyntaxKind::WrongKind));
    };
    if let Some(kind) = map_fault(fields, &["as", "steps"], &[]) {
        return Err(Stop::here(alloc, kind));
    }
    let name = name_at(alloc, fields, "as")?;
    let steps = steps_at(alloc, fields, "steps")?;
    match (name, steps) {
        (Some(name), Some(steps)) => Ok(Except { name, steps }),
        _ => Err(Stop::here(alloc, SyntaxKind::MissingField)),
    }
}

/// The steps that take an error, where they are at `except`.
#[cycle(steps)]
fn except_at(alloc: Global, fields: &TreeMap) -> Result<Option<Except>, Stop>
    ensures { MatchResult result (λ o. AreSoundAnd
        (at (codes "except") rules.Except (pairs_of fields.now))
        (IsExcept (except_option_view o) (pairs_of fields.now)))
        (λ stop. FailsAmong (at (codes "except") rules.Except (pairs_of fields.now)) stop) }
{
    match field(fields, "except") {
        None => Ok(None),
        Some(tree) => match except(alloc, tree) {
            Ok(except) => Ok(Some(except)),
            Err(stop) => Err(stop.at_key(alloc, "except")),
        },
    }
}
