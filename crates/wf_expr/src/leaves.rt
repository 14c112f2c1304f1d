// The parts of an expression that hold no others, and what they are kept in.
ghost use Rattle.std.specs.Prelude.{◌≡◌, ◌∷◌, ◌++◌, [], Some, MatchResult, IfOk, string_bytes, option_map, codes};
ghost use Rattle.wf_ast.specs.Func.{func_named};
ghost use Rattle.wf_ast.specs.View.{expr_view, exprs_view};
ghost use Rattle.wf_expr.specs.Grammar.{atom_expr, call_of};
ghost use Rattle.wf_expr.specs.Kinds.{syms_of};
ghost use Rattle.wf_expr.specs.Machine.{head, atom_of, name_of};
ghost use Rattle.wf_expr.specs.Parts.{longer_by};
ghost use Rattle.wf_expr.specs.declared.stop.Stop.TheVariants as stop;

use crate::functions::function;
use crate::kind::{Kind, Symbol};
use crate::stop::Stop;
use crate::symbol::name;
use std::alloc::Global;
use wf_ast::{Expr, Exprs};
use wf_value::{Text, Value};

/// The value or name that the first symbol is. A decimal is none that is accepted, and is read as null.
pub(crate) fn leaf(alloc: Global, symbols: &[Symbol]) -> Result<Option<Expr>, Stop>
    ensures { MatchResult result (λ e. option_map expr_view e
        ≡ option_map atom_expr (atom_of (head (syms_of symbols.now)))) (λ f. f ≡ stop.OutOfMemory) }
{
    let Some(symbol) = symbols.first() else {
        return Ok(None);
    };
    match &symbol.kind {
        Kind::Number(n) => Ok(Some(Expr::Lit(Value::Int(*n)))),
        Kind::Decimal | Kind::Null => Ok(Some(Expr::Lit(Value::Null))),
        Kind::Quoted(text) => Ok(Some(Expr::Lit(Value::Text(copied(text)?)))),
        Kind::Bool(value) => Ok(Some(Expr::Lit(Value::Bool(*value)))),
        Kind::Name(name) => Ok(Some(Expr::Name(copied(name)?))),
        _ => Ok(None),
    }
}

/// An expression on the heap.
pub(crate) fn boxed(alloc: Global, e: Expr) -> Result<Box<Expr>, Stop>
    ensures { MatchResult result (λ b. b.value ≡ e) (λ f. f ≡ stop.OutOfMemory) }
{
    Ok(Box::new(alloc, e)?)
}

/// A text of the tree, which shares its bytes.
pub(crate) fn copied(text: &Text) -> Result<Text, Stop>
    ensures { MatchResult result (λ t. t ≡ text.now) (λ f. f ≡ stop.OutOfMemory) }
{
    Ok(text.copy()?)
}

/// A text as it stands in the source.
pub(crate) fn written(alloc: Global, text: &str) -> Result<Text, Stop>
    ensures { MatchResult result (λ t. t ≡ text.now) (λ f. f ≡ stop.OutOfMemory) }
{
    Ok(Text::new(alloc, text)?)
}

/// The name that the symbols begin with.
pub(crate) fn first_name(alloc: Global, symbols: &[Symbol]) -> Result<Option<String>, Stop>
    ensures { MatchResult result (λ x. option_map string_bytes x
        ≡ name_of (head (syms_of symbols.now))) (λ f. f ≡ stop.OutOfMemory) }
{
    match name(symbols) {
        None => Ok(None),
        Some(text) => Ok(Some(String::from_str(alloc, text.as_str())?)),
    }
}

/// The name with one more behind a point, if there is a name.
pub(crate) fn longer(chain: Option<String>, key: &Text) -> Result<Option<String>, Stop>
    ensures { MatchResult result (λ x. option_map string_bytes x
        ≡ longer_by (option_map string_bytes chain) key.now) (λ f. f ≡ stop.OutOfMemory) }
{
    let Some(mut name) = chain else {
        return Ok(None);
    };
    name.push_str(".")?;
    name.push_str(key.as_str())?;
    Ok(Some(name))
}

/// No arguments.
pub(crate) fn no_args(alloc: Global) -> Result<Exprs, Stop>
    ensures { MatchResult result (λ es. exprs_view es ≡ []) (λ f. f ≡ stop.OutOfMemory) }
{
    Ok(Exprs::new(alloc)?)
}

/// Adds an argument behind the others.
pub(crate) fn add(args: &mut Exprs, arg: Expr) -> Result<(), Stop>
    ensures { MatchResult result (λ _. exprs_view args.new
        ≡ exprs_view args.old ++ expr_view arg ∷ []) (λ f. f ≡ stop.OutOfMemory) }
{
    args.push(arg)?;
    Ok(())
}

/// The call of a function. One of a name that no function has is none that is accepted, and is read as null.
pub(crate) fn call(name: &str, args: Exprs) -> Expr
    ensures { expr_view result ≡ call_of (func_named name.now) (exprs_view args) }
{
    match function(name) {
        Some(callee) => Expr::Call(callee.func, args),
        None => Expr::Lit(Value::Null),
    }
}
