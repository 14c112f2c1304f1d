//! The code of an expression.
ghost use Rattle.std.specs.Prelude.{◌≡◌, List, [], ◌∷◌, ◌++◌, map, OnOk, IfOk};
ghost use Rattle.wf_ast.specs.Tree as t;
ghost use Rattle.wf_ast.specs.Tree.{exprs};
ghost use Rattle.wf_ast.specs.Law.{CodeMeans};
ghost use Rattle.wf_ast.specs.Machine.{code, all_code, check};
ghost use Rattle.wf_ast.specs.View.{expr_view};
ghost use Rattle.wf_ast.specs.Instrs.{instrs};

use crate::{Expr, Func, Op};
use std::alloc::Global;
use std::marker::Model;
use wf_name::Name;
use wf_value::{OutOfMemory, Text, Value};

/// An instruction for a stack of values. A skip passes so many instructions.
pub enum Instr {
    Push(Value),
    Load(Name),
    Negate,
    Invert,
    Combine(Op),
    Member(Text),
    Index,
    Call(Func, usize),
    AndSkip(usize),
    OrSkip(usize),
    Check,
}

// Written, and not derived: it is one call wherever an instruction is let go.
impl Drop for Instr {
    fn drop(self) {
        match self {
            Instr::Push(_)
            | Instr::Load(_)
            | Instr::Negate
            | Instr::Invert
            | Instr::Combine(_)
            | Instr::Member(_)
            | Instr::Index
            | Instr::Call(_, _)
            | Instr::AndSkip(_)
            | Instr::OrSkip(_)
            | Instr::Check => {}
        }
    }
}

/// The code of an expression, which `compile` alone makes.
#[derive(Drop)]
pub struct Postfix {
    items: Vec<Instr>,
}

impl Model for Postfix {
    ghost use Rattle.std.specs.Prelude.{List};
    ghost use Rattle.wf_ast.specs.declared.code.Instr.{Instr};
    ghost use Rattle.wf_ast.specs.Instrs.{IsCode};

    ghost Value = { List Instr };

    ghost use Rattle.std.specs.Coded.{codes};
    ghost use Rattle.wf_value.specs.Code.{coded_data, coded_items, coded_pairs};

    ghost coded = { Prim.hlevel (codes, coded_data, coded_items, coded_pairs) };

    ghost view = { λ a. a.items.items };

    ghost invariant = { λ a. IsCode a.items.items };
}

impl Postfix {
    /// The instructions, in their order.
    pub fn items(&self) -> &[Instr]
        ensures items { result.now ≡ self.now }
        ensures code { (e : t.Expr) × (instrs self.now ≡ code e) }
    {
        self.items.as_slice()
    }
}

/// The code of an expression.
pub fn compile(alloc: Global, e: &Expr) -> Result<Postfix, OutOfMemory>
    ensures { IfOk result (λ p. instrs p ≡ code (expr_view e.now)) }
{
    let mut items = Vec::new(alloc);
    emit(alloc, &mut items, e)?;
    Ok(Postfix { items })
}

/// From an empty stack the code of an expression leaves its value alone, or its first error comes.
#[tactic(auto, using(crate::proofs::Compiled::compiled))]
pub fn code_means()
    ensures { CodeMeans }
{}

#[cycle(emit)]
fn emit(alloc: Global, items: &mut Vec<Instr>, e: &Expr) -> Result<(), OutOfMemory>
    ensures { OnOk result (instrs items.new.items
        ≡ instrs items.old.items ++ code (expr_view e.now)) }
{
    match e {
        Expr::Lit(v) => put(items, Instr::Push(v.copy(alloc)?)),
        Expr::Name(x) => put(items, Instr::Load(Name::new(alloc, x.as_str())?)),
        Expr::Neg(a) => emit_then(alloc, items, a, Instr::Negate),
        Expr::Not(a) => emit_then(alloc, items, a, Instr::Invert),
        Expr::And(a, b) => {
            emit(alloc, items, a)?;
            let right = emit_side(alloc, b)?;
            put(items, Instr::AndSkip(right.len()))?;
            put_all(items, right)
        }
        Expr::Or(a, b) => {
            emit(alloc, items, a)?;
            let right = emit_side(alloc, b)?;
            put(items, Instr::OrSkip(right.len()))?;
            put_all(items, right)
        }
        Expr::Bin(op, a, b) => {
            emit(alloc, items, a)?;
            emit(alloc, items, b)?;
            put(items, Instr::Combine(*op))
        }
        Expr::Key(a, k) => {
            let member = Instr::Member(Text::new(alloc, k.as_str())?);
            emit_then(alloc, items, a, member)
        }
        Expr::Index(a, b) => {
            emit(alloc, items, a)?;
            emit(alloc, items, b)?;
            put(items, Instr::Index)
        }
        Expr::Call(f, es) => {
            let args = es.items();
            emit_all(alloc, items, args)?;
            put(items, Instr::Call(*f, args.len()))
        }
    }
}

/// The code of an expression, and an instruction behind it.
#[cycle(emit)]
fn emit_then(
    alloc: Global,
    items: &mut Vec<Instr>,
    e: &Expr,
    last: Instr,
) -> Result<(), OutOfMemory>
    ensures { OnOk result (instrs items.new.items
        ≡ instrs items.old.items ++ code (expr_view e.now) ++ instrs (last ∷ [])) }
{
    emit(alloc, items, e)?;
    put(items, last)
}

/// The right side of an `and` or an `or`.
#[cycle(emit)]
fn emit_side(alloc: Global, e: &Expr) -> Result<Vec<Instr>, OutOfMemory>
    ensures { IfOk result (λ v. instrs v.items ≡ code (expr_view e.now) ++ check ∷ []) }
{
    let mut right = Vec::new(alloc);
    emit(alloc, &mut right, e)?;
    put(&mut right, Instr::Check)?;
    Ok(right)
}

#[cycle(emit)]
fn emit_all(alloc: Global, items: &mut Vec<Instr>, es: &[Expr]) -> Result<(), OutOfMemory>
    ensures { OnOk result (instrs items.new.items
        ≡ instrs items.old.items ++ all_code (exprs (map expr_view es.now))) }
{
    for e in es {
        emit(alloc, items, e)?;
    }
    Ok(())
}

/// One more instruction.
fn put(items: &mut Vec<Instr>, instr: Instr) -> Result<(), OutOfMemory>
    ensures { OnOk result (items.new.items ≡ items.old.items ++ instr ∷ []) }
{
    items.push(instr)?;
    Ok(())
}

/// More instructions.
fn put_all(items: &mut Vec<Instr>, mut more: Vec<Instr>) -> Result<(), OutOfMemory>
    ensures { OnOk result (items.new.items ≡ items.old.items ++ more.items) }
{
    items.append(&mut more)?;
    Ok(())
}
