//! Operators on two values.
ghost use Rattle.std.specs.Prelude.{◌≡◌, ◌++◌, not, int_lt, int_le, Ok};
ghost use Rattle.wf_ast.specs.Eval.{operate, added, on_wholes, compared, is_below};
ghost use Rattle.wf_value.specs.Data.{text, boolean};
ghost use Rattle.wf_value.specs.Numbers.{whole_difference, whole_product, exact_quotient, truncated_quotient, whole_rest};
ghost use Rattle.wf_value.specs.Pairs.{same};
ghost use Rattle.wf_value.specs.Plain.{plain};
ghost use Rattle.wf_eval.specs.Answers.{Gives};

use crate::answers::{number, text, whole};
use crate::members::{are_same, found_in};
use std::alloc::Global;
use std::cmp::Ordering;
use wf_ast::Op;
use wf_value::{Raise, Tag, Value, add, div, mul, rem, sub, trunc_div};

/// The operator's value.
#[inline(always)]
pub fn operate(alloc: Global, op: Op, v: &Value, w: &Value) -> Result<Value, Raise>
    ensures { Gives result (operate op (plain v.now) (plain w.now)) }
{
    match op {
        Op::Add => added(alloc, v, w),
        Op::Sub => difference(v, w),
        Op::Mul => product(v, w),
        Op::Div => quotient(v, w),
        Op::TruncDiv => truncated(v, w),
        Op::Rem => rest(v, w),
        Op::Eq => Ok(Value::Bool(are_same(v, w))),
        Op::Ne => Ok(Value::Bool(!are_same(v, w))),
        Op::Lt => is_less(v, w),
        Op::Le => is_at_most(v, w),
        Op::Gt => is_less(w, v),
        Op::Ge => is_at_most(w, v),
        Op::In => found_in(v, w),
    }
}

/// `+`
#[inline(always)]
fn added(alloc: Global, v: &Value, w: &Value) -> Result<Value, Raise>
    ensures { Gives result (added (plain v.now) (plain w.now)) }
{
    match v {
        Value::Int(a) => match w {
            Value::Int(b) => number(add(*a, *b)),
            _ => Err(Raise::Error(Tag::TypeError)),
        },
        Value::Text(a) => match w {
            Value::Text(b) => joined(alloc, a.as_str(), b.as_str()),
            _ => Err(Raise::Error(Tag::TypeError)),
        },
        _ => Err(Raise::Error(Tag::TypeError)),
    }
}

/// Two texts in a row.
fn joined(alloc: Global, a: &str, b: &str) -> Result<Value, Raise>
    ensures { Gives result (Ok (text (a.now ++ b.now))) }
{
    let mut s = String::from_str(alloc, a)?;
    s.push_str(b)?;
    text(alloc, s.as_str())
}

/// `-`
fn difference(v: &Value, w: &Value) -> Result<Value, Raise>
    ensures { Gives result (on_wholes whole_difference (plain v.now) (plain w.now)) }
{
    number(sub(whole(v)?, whole(w)?))
}

/// `*`
fn product(v: &Value, w: &Value) -> Result<Value, Raise>
    ensures { Gives result (on_wholes whole_product (plain v.now) (plain w.now)) }
{
    number(mul(whole(v)?, whole(w)?))
}

/// `/`
fn quotient(v: &Value, w: &Value) -> Result<Value, Raise>
    ensures { Gives result (on_wholes exact_quotient (plain v.now) (plain w.now)) }
{
    number(div(whole(v)?, whole(w)?))
}

/// `//`
fn truncated(v: &Value, w: &Value) -> Result<Value, Raise>
    ensures { Gives result (on_wholes truncated_quotient (plain v.now) (plain w.now)) }
{
    number(trunc_div(whole(v)?, whole(w)?))
}

/// `%`
fn rest(v: &Value, w: &Value) -> Result<Value, Raise>
    ensures { Gives result (on_wholes whole_rest (plain v.now) (plain w.now)) }
{
    number(rem(whole(v)?, whole(w)?))
}

/// `<`
fn is_less(v: &Value, w: &Value) -> Result<Value, Raise>
    ensures { Gives result (compared int_lt is_below (plain v.now) (plain w.now)) }
{
    match v {
        Value::Int(a) => match w {
            Value::Int(b) => Ok(Value::Bool(*a < *b)),
            _ => Err(Raise::Error(Tag::TypeError)),
        },
        Value::Text(a) => match w {
            Value::Text(b) => Ok(Value::Bool(is_text_below(a.as_str(), b.as_str()))),
            _ => Err(Raise::Error(Tag::TypeError)),
        },
        _ => Err(Raise::Error(Tag::TypeError)),
    }
}

/// `<=`
fn is_at_most(v: &Value, w: &Value) -> Result<Value, Raise>
    ensures { Gives result (compared int_le (λ a b. not (is_below b a)) (plain v.now)
        (plain w.now)) }
{
    match v {
        Value::Int(a) => match w {
            Value::Int(b) => Ok(Value::Bool(*a <= *b)),
            _ => Err(Raise::Error(Tag::TypeError)),
        },
        Value::Text(a) => match w {
            Value::Text(b) => Ok(Value::Bool(!is_text_below(b.as_str(), a.as_str()))),
            _ => Err(Raise::Error(Tag::TypeError)),
        },
        _ => Err(Raise::Error(Tag::TypeError)),
    }
}

/// Whether a text's bytes come before another's.
fn is_text_below(a: &str, b: &str) -> bool
    ensures { result ≡ is_below a.now b.now }
{
    match a.cmp(&b) {
        Ordering::Less => true,
        _ => false,
    }
}
