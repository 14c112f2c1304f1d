// What a machine begins with.
ghost use Rattle.std.specs.Prelude.{◌≡◌, true, IfOk, OnOk};
ghost use Rattle.wf_alone.specs.Machine.{argument_of};
ghost use Rattle.wf_ast.specs.Tree.{Program};
ghost use Rattle.wf_check.specs.Seen.{nodes_of, program_of};
ghost use Rattle.wf_events.specs.View.{start_view};
ghost use Rattle.wf_machine.specs.Facts.{facts_of, facts_view};
ghost use Rattle.wf_machine.specs.Main.{Aims, Begins, IsStandingFirst, Lives};
ghost use Rattle.wf_frames.specs.Built.{AreTargets, IsTableOf, is_table_built};
ghost use Rattle.wf_frames.specs.Kinds.{AreWants};
ghost use Rattle.wf_model.specs.Spots.{spots};

use crate::argument::argument_of;
use crate::ending::Ending;
use crate::facts::Facts;
use crate::targets::targets_of;
use crate::task::first_task;
use std::alloc::Global;
use wf_branches::Tasks;
use wf_check::Checked;
use wf_events::Start;
use wf_frames::{Target, Wants, are_built};
use wf_moves::Task;
use wf_scope::Scopes;
use wf_value::{OutOfMemory, Value};
use wf_wants::wants_of;

/// What all variables together may come to, under the first rules.
const VARIABLE_LIMIT: u64 = 65_536;

/// What a machine begins with beside its program: what calls name, what nodes want, what is kept of the start, `main` before its first step
/// if it has one, and the layers of its variables.
#[derive(Drop)]
pub(crate) struct Beginning {
    pub(crate) targets: Vec<Target>,
    pub(crate) wants: Vec<Wants>,
    pub(crate) facts: Facts,
    pub(crate) task: Option<Task>,
    pub(crate) scopes: Scopes,
}

/// The live tasks of an execution that begins, with what they have still to do, and its ending if it has one.
#[derive(Drop)]
pub(crate) struct Live {
    pub(crate) tasks: Tasks,
    pub(crate) moving: Vec<Task>,
    pub(crate) ending: Ending,
}

/// `main` alone is live; where it has no steps no task is, and it has returned null.
pub(crate) fn live_of(alloc: Global, task: Option<Task>) -> Result<Live, OutOfMemory>
    ensures { IfOk result (λ l. Lives task l.tasks l.moving.items l.ending) }
{
    let mut tasks = Tasks::new(alloc)?;
    let mut moving = Vec::new(alloc);
    match task {
        Some(task) => {
            moving.push(task)?;
            Ok(Live {
                tasks,
                moving,
                ending: Ending::Running,
            })
        }
        None => {
            tasks.clear();
            Ok(Live {
                tasks,
                moving,
                ending: Ending::Returned(Value::Null),
            })
        }
    }
}

/// What each node of a program wants.
fn wants_by(alloc: Global, program: &Checked, targets: &[Target]) -> Result<Vec<Wants>, OutOfMemory>
    ghost plain: { Program }
    requires tells { IsTableOf (spots plain.flows) (nodes_of program.now) }
    ensures { IfOk result (λ v. (p : Program)
        → AreTargets p.flows (spots plain.flows) (nodes_of program.now) targets.now
        → AreWants p (spots plain.flows) (nodes_of program.now) v.items) }
{
    wants_of(alloc, program.nodes(), targets)
}

/// What a machine begins with at a start. A form whose moves aren't built is answered as if there were no memory: the checker refuses it.
pub(crate) fn beginning_of(
    alloc: Global,
    start: &Start,
    program: &Checked,
) -> Result<Beginning, OutOfMemory>
    ensures built { OnOk result (is_table_built (nodes_of program.now) ≡ true) }
    ensures aims { IfOk result (λ b. Aims (program_of program.now) (nodes_of program.now)
        b.targets.items) }
    ensures wants { IfOk result (λ b. AreWants (program_of program.now)
        (spots (program_of program.now).flows) (nodes_of program.now) b.wants.items) }
    ensures facts { IfOk result (λ b. facts_view b.facts ≡ facts_of (start_view start.now)) }
    ensures begins { IfOk result (λ b. Begins (program_of program.now)
        (argument_of (start_view start.now)) b.task b.scopes) }
    ensures standing { IfOk result (λ b. IsStandingFirst (program_of program.now)
        (nodes_of program.now) b.task b.scopes) }
{
    let nodes = program.nodes();
    if !are_built(nodes) {
        return Err(OutOfMemory);
    }
    let targets = targets_of(alloc, program)?;
    let wants = wants_by(alloc, program, targets.as_slice())?;
    let facts = Facts::of(alloc, start)?;
    let argument = argument_of(alloc, start)?;
    let mut scopes = Scopes::new(alloc, VARIABLE_LIMIT)?;
    let task = first_task(alloc, program, argument, &mut scopes)?;
    Ok(Beginning {
        targets,
        wants,
        facts,
        task,
        scopes,
    })
}
