// A source's tree as a program.
ghost use Rattle.std.specs.Prelude.{IfOk, IfErr};
ghost use Rattle.wf_ast.specs.View.{program_view};
ghost use Rattle.wf_syntax_rules.specs.Laws.{HasSmallBackoffs};
ghost use Rattle.wf_syntax_rules.specs.Meaning.{Builds};
ghost use Rattle.wf_syntax.specs.Answers.{IsSyntaxFault, IsToldOf};
ghost use Rattle.wf_tree.specs.Plain.{plain_tree};

use crate::flows::{main_alone, program};
use crate::stop::Stop;
use std::alloc::Global;
use wf_ast::Program;
use wf_syntax_rules::{SyntaxFault, SyntaxKind};
use wf_tree::Tree;
use wf_value::Path;

/// The program that a source's tree is: a list is the steps of `main`, a map has a block for each workflow. It is an
/// error when the tree breaks a rule of the syntax: the first one is told, in preorder, with the path of its node. It
/// is an error too when memory is missing.
///
/// No number of a program's backoffs is over a year in milliseconds.
pub fn build(alloc: Global, tree: &Tree) -> Result<Program, SyntaxFault>
    ensures program { IfOk result (λ p. Builds (plain_tree tree.now) (program_view p)) }
    ensures small { IfOk result (λ p. HasSmallBackoffs (program_view p)) }
    ensures fault { IfErr result (IsSyntaxFault (plain_tree tree.now)) }
{
    let built = match tree {
        Tree::List(_) => main_alone(alloc, tree),
        Tree::Map(fields) => program(alloc, fields),
        _ => Err(Stop::here(alloc, SyntaxKind::WrongKind)),
    };
    match built {
        Ok(program) => Ok(program),
        Err(stop) => Err(told(alloc, stop)),
    }
}

/// A fault with its path from the source's own node.
fn told(alloc: Global, stop: Stop) -> SyntaxFault
    ensures { IsToldOf stop result }
{
    let Stop::Refused(kind, mut way) = stop else {
        return SyntaxFault::OutOfMemory;
    };
    let Ok(mut path) = Path::new(alloc) else {
        return SyntaxFault::OutOfMemory;
    };
    'each: while let Some(part) = way.pop() {
        if path.push(part).is_err() {
            return SyntaxFault::OutOfMemory;
        }
    }
    SyntaxFault::Refused(kind, path)
}
