// The check of a program.
ghost use Rattle.std.specs.Prelude.{◌≡◌, IfErr, IfOk, IsTrue};
ghost use Rattle.std.specs.List.{list_all};
ghost use Rattle.wf_ast.specs.Accept.{Accept, small_backoff};
ghost use Rattle.wf_ast.specs.Nodes.{nodes};
ghost use Rattle.wf_ast.specs.View.{program_view};
ghost use Rattle.wf_check.specs.Check.{IsCheckFault, IsToldOf};
ghost use Rattle.wf_check.specs.Said.{program_built};
ghost use Rattle.wf_check.specs.Seen.{held_by, program_of};

use crate::checked::Checked;
use crate::flows::program as walk;
use std::alloc::Global;
use wf_ast::Program;
use wf_diagnostics::{CheckKind, Stop};
use wf_table::table_of;
use wf_value::Path;

/// Why a program isn't accepted: what is said first in preorder, with its place; or there is no memory to look for it.
#[derive(Drop)]
pub enum CheckFault {
    Refused(CheckKind, Path),
    OutOfMemory,
}

/// Checks a program: it is accepted, and its table is made, or this is what is said first. Want of memory may always come.
#[tactic(auto, using(crate::proofs::Accepted::accepted_when, crate::proofs::Accepted::accept_of, crate::proofs::Accepted::built_of))]
pub fn check(alloc: Global, program: Program) -> Result<Checked, CheckFault>
    requires { IsTrue (list_all small_backoff (nodes (program_view program).flows)) }
    ensures accepted { IfOk result (λ c. Accept (program_of c)) }
    ensures built { IfOk result (λ c. IsTrue (program_built (program_of c))) }
    ensures program { IfOk result (λ c. held_by c ≡ program) }
    ensures fault { IfErr result (IsCheckFault (program_view program)) }
{
    match walk(alloc, program.flows.items()) {
        Ok(_) => {}
        Err(stop) => return Err(told(alloc, stop)),
    }
    match table_of(alloc, &program) {
        Ok(table) => Ok(Checked { program, table }),
        Err(_) => Err(CheckFault::OutOfMemory),
    }
}

/// A fault with its path from the source's own node.
fn told(alloc: Global, stop: Stop) -> CheckFault
    ensures { IsToldOf stop result }
{
    let Stop::Refused(kind, mut way) = stop else {
        return CheckFault::OutOfMemory;
    };
    let Ok(mut path) = Path::new(alloc) else {
        return CheckFault::OutOfMemory;
    };
    'each: while let Some(part) = way.pop() {
        if path.push(part).is_err() {
            return CheckFault::OutOfMemory;
        }
    }
    CheckFault::Refused(kind, path)
}
