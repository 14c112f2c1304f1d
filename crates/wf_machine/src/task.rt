// `main`, over the table of its program.
ghost use Rattle.std.specs.Prelude.{◌≡◌, IfOk, OnOk, true};
ghost use Rattle.wf_ast.specs.Tree.{Program};
ghost use Rattle.wf_check.specs.Seen.{nodes_of};
ghost use Rattle.wf_frames.specs.Fits.{Fits};
ghost use Rattle.wf_frames.specs.Frames.{inner};
ghost use Rattle.wf_frames.specs.Owned.{Around};
ghost use Rattle.wf_frames.specs.Sights.{Sees};
ghost use Rattle.wf_frames.specs.Stands.{Stands};
ghost use Rattle.wf_frames.specs.Turns.{Agrees};
ghost use Rattle.wf_machine.specs.Causes.{ReachesFor, SuitsTo, calls_by, does_by};
ghost use Rattle.wf_machine.specs.Main.{Begins, IsStandingFirst, around, task_control};
ghost use Rattle.wf_model.specs.Kinds.{next_kind};
ghost use Rattle.wf_model.specs.Local.{Scene};
ghost use Rattle.wf_moves.specs.Tasks.{IsFirst, MovesSo, Stays};
ghost use Rattle.wf_moves.specs.Waits.{CanGoOn, is_awake_in, result_in, task_local};
ghost use Rattle.wf_model.specs.Spots.{spots};
ghost use Rattle.wf_frames.specs.Built.{AreTargets, IsTableOf};
ghost use Rattle.wf_frames.specs.Kinds.{AreWants, kind_view};
ghost use Rattle.wf_value.specs.Plain as values;

use crate::facts::Facts;
use std::alloc::Global;
use wf_calls::{Calls, Closed};
use wf_check::Checked;
use wf_frames::{Kind, Target, Wants};
use wf_moves::{Move, Task};
use wf_scope::Scopes;
use wf_value::{OutOfMemory, Value};

/// `main` before its first step, with its parameter bound to the argument if it has one; or none where it has no steps. An argument past
/// the limit on variables is answered as if there were no memory.
pub(crate) fn first_task(
    alloc: Global,
    program: &Checked,
    argument: Value,
    scopes: &mut Scopes,
) -> Result<Option<Task>, OutOfMemory>
    ghost plain: { Program }
    requires tells { IsTableOf (spots plain.flows) (nodes_of program.now) }
    requires first { IsFirst (around plain) scopes.old }
    ensures begins { IfOk result (λ t. Begins plain (values.plain argument) t scopes.new) }
    ensures standing { IfOk result (λ t. IsStandingFirst plain (nodes_of program.now) t scopes.new) }
{
    let nodes = program.nodes();
    if nodes.is_empty() {
        return Ok(None);
    }
    let task = Task::new(alloc, nodes, 0, argument, scopes)?;
    if task.is_ended() {
        return Ok(None);
    }
    Ok(Some(task))
}

/// Which event a task's next move wants.
#[inline(always)]
pub(crate) fn kind_of(program: &Checked, wants: &[Wants], task: &Task) -> Kind
    ghost plain: { Program }
    requires tells { IsTableOf (spots plain.flows) (nodes_of program.now) }
    requires fits { Fits (spots plain.flows) (nodes_of program.now) (inner task.now.frames) }
    requires going { CanGoOn (nodes_of program.now) task.now }
    requires awake { is_awake_in task.now.wait ≡ true }
    ensures { (p : Program)
        → AreWants p (spots plain.flows) (nodes_of program.now) wants.now
        → kind_view result ≡ next_kind p (task_control plain task.now) }
{
    task.next_kind(program.nodes(), wants)
}

/// Why a task goes on.
#[derive(Drop)]
pub(crate) enum Cause {
    /// It takes its next step.
    Step,
    /// What it has waited for has come.
    Heard(Heard),
    /// The moment until which it has slept, or waited for its next try, has come.
    Due,
}

/// The end of a call: how it is closed, and the value that it gives or the error that it raises.
#[derive(Drop)]
pub(crate) struct Heard {
    pub(crate) call: u64,
    pub(crate) how: Closed,
    pub(crate) with: Result<Value, Value>,
}

/// A task goes on for this cause. Without memory the task, the layers and the calls are only to be let go.
#[inline(always)]
pub(crate) fn go_on(
    program: &Checked,
    targets: &[Target],
    facts: &Facts,
    task: &mut Task,
    scopes: &mut Scopes,
    calls: &mut Calls,
    cause: Cause,
) -> Result<Move, OutOfMemory>
    ghost around: { Around }
    requires tells { IsTableOf around.spots (nodes_of program.now) }
    requires aims { AreTargets around.flows around.spots (nodes_of program.now) targets.now }
    requires stands { Stands around (nodes_of program.now) task.old.frames scopes.old }
    requires going { CanGoOn (nodes_of program.now) task.old }
    requires suits { SuitsTo cause task.old }
    ensures moved { IfOk result (λ m. (s : Scene) → Sees s facts.now.of_step
        → ReachesFor cause s facts.now.sending → Agrees s around
        → MovesSo (does_by cause (result_in around task.old.wait) s
        (task_local around task.old scopes.old)) m
        (task_local around task.new scopes.new)) }
    ensures calls { OnOk result (calls.new ≡ calls_by cause calls.old) }
    ensures stands { OnOk result (Stands around (nodes_of program.now) task.new.frames scopes.new) }
    ensures left { IfOk result (λ m. Stays (nodes_of program.now) m task.new) }
{
    let nodes = program.nodes();
    match cause {
        Cause::Step => task.advance(nodes, targets, scopes, &facts.of_step, &facts.sending),
        Cause::Heard(heard) => {
            calls.close(heard.call, heard.how);
            task.go_on(nodes, targets, scopes, heard.with, &facts.of_step)
        }
        Cause::Due => task.wake(nodes, targets, scopes, &facts.of_step),
    }
}
