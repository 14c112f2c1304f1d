//! Expressions.
ghost use Rattle.std.specs.Prelude.{◌≡◌, [], ◌∷◌, ◌++◌, IfOk, is_ok, if◌then◌else◌, map};
ghost use Rattle.wf_ast.specs.View.{expr_list, expr_view, exprs_view};

use crate::grow::add;
use std::alloc::Global;
use wf_value::{OutOfMemory, Text, Value};

/// An operator on two values.
#[derive(Debug, Clone, Copy, PartialEq, Eq)]
pub enum Op {
    Add,
    Sub,
    Mul,
    Div,
    TruncDiv,
    Rem,
    Eq,
    Ne,
    Lt,
    Le,
    Gt,
    Ge,
    In,
}

/// A function that an expression can call.
#[derive(Debug, Clone, Copy, PartialEq, Eq)]
pub enum Func {
    Default,
    Keys,
    Len,
    GetType,
    Int,
    String,
    If,
    TextSplit,
    TextReplaceAll,
    TextSubstring,
    TextFindAll,
    TextToUpper,
    TextToLower,
    TextUrlEncode,
    TextUrlDecode,
    TextEncode,
    TextDecode,
    ListConcat,
    ListPrepend,
    MapGet,
    MapDelete,
    MapMerge,
    JsonEncode,
    JsonEncodeToString,
    JsonDecode,
    Base64Encode,
    Base64Decode,
    TimeFormat,
    TimeParse,
    SysNow,
    SysGetEnv,
}

/// An expression.
#[cycle(expr)]
pub enum Expr {
    Lit(Value),
    Name(Text),
    Neg(Box<Expr>),
    Not(Box<Expr>),
    And(Box<Expr>, Box<Expr>),
    Or(Box<Expr>, Box<Expr>),
    Bin(Op, Box<Expr>, Box<Expr>),
    Key(Box<Expr>, Text),
    Index(Box<Expr>, Box<Expr>),
    Call(Func, Exprs),
}

// Written, and not derived: it is one call wherever an expression is let go.
impl Drop for Expr {
    fn drop(self) {
        match self {
            Expr::Lit(_) | Expr::Name(_) | Expr::Call(_, _) => {}
            Expr::Neg(_) | Expr::Not(_) | Expr::Key(_, _) => {}
            Expr::And(_, _) | Expr::Or(_, _) | Expr::Bin(_, _, _) | Expr::Index(_, _) => {}
        }
    }
}

/// Expressions in their order.
#[cycle(expr)]
#[derive(Drop)]
pub struct Exprs {
    items: Vec<Expr>,
}

impl Exprs {
    /// Makes a list with no items.
    pub fn new(alloc: Global) -> Result<Exprs, OutOfMemory>
        ensures { IfOk result (λ list. exprs_view list ≡ []) }
    {
        Ok(Exprs {
            items: Vec::new(alloc),
        })
    }

    /// Adds an item at the end. Without memory the list stays as it was.
    pub fn push(&mut self, item: Expr) -> Result<(), OutOfMemory>
        ensures { exprs_view self.new ≡
            (if is_ok result then exprs_view self.old
            ++ expr_view item ∷ [] else exprs_view self.old) }
    {
        add(&mut self.items, item)
    }

    /// Lends the items, in their order.
    pub fn items(&self) -> &[Expr]
        ensures items { result.now ≡ expr_list self.now }
        ensures view { map expr_view result.now ≡ exprs_view self.now }
    {
        self.items.as_slice()
    }
}
