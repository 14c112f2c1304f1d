// Why a tree is no program, or its program isn't accepted, as a refusal.
ghost use Rattle.std.specs.Prelude.{◌≡◌};
ghost use Rattle.wf_source.specs.Programs as programs;

use wf_check::CheckKind;
use wf_expr::ExprFault;
use wf_span::LexFault;
use wf_status::{Place, Refusal, RefusalKind};
use wf_syntax_rules::SyntaxKind;
use wf_value::Path;

/// The kind of an expression's fault.
fn expression_kind(fault: ExprFault) -> RefusalKind
    ensures { result ≡ programs.expression_kind fault }
{
    match fault {
        ExprFault::Lex(LexFault::BadCharacter(_)) => RefusalKind::BadCharacter,
        ExprFault::Lex(LexFault::OpenText(_)) => RefusalKind::OpenText,
        ExprFault::Decimal(_) => RefusalKind::Decimal,
        ExprFault::UnknownFunction(_) => RefusalKind::UnknownFunction,
        ExprFault::Arity(_) => RefusalKind::Arity,
        ExprFault::TooLong => RefusalKind::TooLong,
        // want of memory is told apart
        _ => RefusalKind::Syntax,
    }
}

/// The place of an expression's fault in its text, from behind its `${`; none where it is too long.
fn expression_place(fault: ExprFault, path: Path) -> Place
    ensures { result ≡ programs.expression_place fault path }
{
    match fault {
        ExprFault::Lex(LexFault::BadCharacter(at)) | ExprFault::Lex(LexFault::OpenText(at)) => {
            Place::Within(path, at)
        }
        ExprFault::Syntax(at)
        | ExprFault::Decimal(at)
        | ExprFault::UnknownFunction(at)
        | ExprFault::Arity(at) => Place::Within(path, at),
        _ => Place::Path(path),
    }
}

/// The refusal of a tree that breaks a rule at a path.
pub(crate) fn refusal_of(kind: SyntaxKind, path: Path) -> Refusal
    ensures { result ≡ programs.refusal_of kind path }
{
    let place = match kind {
        SyntaxKind::Expression(fault) => expression_place(fault, path),
        _ => Place::Path(path),
    };
    let kind = match kind {
        SyntaxKind::NotAStep => RefusalKind::NotAStep,
        SyntaxKind::UnknownField => RefusalKind::UnknownField,
        SyntaxKind::MissingField => RefusalKind::MissingField,
        SyntaxKind::WrongKind => RefusalKind::WrongKind,
        SyntaxKind::Expression(fault) => expression_kind(fault),
    };
    Refusal { kind, place }
}

/// The kind of what the checker says.
fn check_kind(kind: CheckKind) -> RefusalKind
    ensures { result ≡ programs.check_kind kind }
{
    match kind {
        CheckKind::EmptySteps => RefusalKind::EmptySteps,
        CheckKind::DoubleStep => RefusalKind::DoubleStep,
        CheckKind::UnknownStep => RefusalKind::UnknownStep,
        CheckKind::JumpOutOfScope => RefusalKind::JumpOutOfScope,
        CheckKind::BreakOutsideLoop => RefusalKind::BreakOutsideLoop,
        CheckKind::ReturnInBranch => RefusalKind::ReturnInBranch,
        CheckKind::UndeclaredWrite => RefusalKind::UndeclaredWrite,
        CheckKind::UnknownShared => RefusalKind::UnknownShared,
        CheckKind::UnknownName => RefusalKind::UnknownName,
        CheckKind::UnknownCall => RefusalKind::UnknownCall,
        CheckKind::BadArgument => RefusalKind::BadArgument,
        CheckKind::TooMany => RefusalKind::TooMany,
        CheckKind::NotYet => RefusalKind::NotYet,
    }
}

/// The refusal of a program of which the checker says this at a path.
pub(crate) fn said_refusal(kind: CheckKind, path: Path) -> Refusal
    ensures { result ≡ programs.said_refusal (record { kind = kind; place = path }) }
{
    Refusal {
        kind: check_kind(kind),
        place: Place::Path(path),
    }
}
