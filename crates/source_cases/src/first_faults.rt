// The tables `syntax`, `first_faults` and `decimals_in_sources`: a source's first fault with its place, or `built`.
use std::alloc::Global;
use wf_cases::CaseFault;
use wf_expr::ExprFault;
use wf_span::LexFault;
use wf_status::{Place, RefusalKind};
use wf_syntax::build;
use wf_syntax_rules::{SyntaxFault, SyntaxKind};
use wf_tree::Tree;
use wf_value::Path;

/// What is told of a tree.
pub(crate) fn first_fault(alloc: Global, tree: &Tree) -> Result<String, CaseFault> {
    match build(alloc, tree) {
        Ok(_) => Ok(String::from_str(alloc, "built")?),
        Err(SyntaxFault::Refused(kind, path)) => line_of(alloc, kind, path),
        Err(SyntaxFault::OutOfMemory) => Err(CaseFault::OutOfMemory),
    }
}

fn line_of(alloc: Global, kind: SyntaxKind, path: Path) -> Result<String, CaseFault> {
    let (kind, offset) = match kind {
        SyntaxKind::NotAStep => (RefusalKind::NotAStep, None),
        SyntaxKind::UnknownField => (RefusalKind::UnknownField, None),
        SyntaxKind::MissingField => (RefusalKind::MissingField, None),
        SyntaxKind::WrongKind => (RefusalKind::WrongKind, None),
        SyntaxKind::Expression(fault) => of_expression(fault)?,
    };
    let place = match offset {
        None => Place::Path(path),
        Some(at) => Place::Within(path, at),
    };
    let place = place.print(alloc)?;
    Ok(format!(in alloc; "{} at {}", kind.name(), place.as_str())?)
}

/// The kind of an expression's fault, and its place in the text where it has one.
fn of_expression(fault: ExprFault) -> Result<(RefusalKind, Option<u32>), CaseFault> {
    match fault {
        ExprFault::Lex(LexFault::BadCharacter(at)) => Ok((RefusalKind::BadCharacter, Some(at))),
        ExprFault::Lex(LexFault::OpenText(at)) => Ok((RefusalKind::OpenText, Some(at))),
        ExprFault::Syntax(at) => Ok((RefusalKind::Syntax, Some(at))),
        ExprFault::Decimal(at) => Ok((RefusalKind::Decimal, Some(at))),
        ExprFault::UnknownFunction(at) => Ok((RefusalKind::UnknownFunction, Some(at))),
        ExprFault::Arity(at) => Ok((RefusalKind::Arity, Some(at))),
        ExprFault::TooLong => Ok((RefusalKind::TooLong, None)),
        ExprFault::Lex(LexFault::OutOfMemory) | ExprFault::OutOfMemory => {
            Err(CaseFault::OutOfMemory)
        }
    }
}
