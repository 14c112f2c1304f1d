// Equality of values.
ghost use Rattle.std.specs.Prelude.{◌≡◌};
ghost use Rattle.std.specs.Bool.{Decides};

use crate::{Text, Value};

impl Value {
    /// Whether the two are equal: of one kind, and equal in all that they hold.
    #[cycle(same)]
    pub fn same(&self, other: &Value) -> bool
        ensures { Decides result (self.now ≡ other.now) }
    {
        match self {
            Value::Null => match other {
                Value::Null => true,
                _ => false,
            },
            Value::Bool(a) => match other {
                Value::Bool(b) => *a == *b,
                _ => false,
            },
            Value::Int(a) => match other {
                Value::Int(b) => *a == *b,
                _ => false,
            },
            Value::Text(a) => match other {
                Value::Text(b) => a.as_str() == b.as_str(),
                _ => false,
            },
            Value::Bytes(a) => match other {
                Value::Bytes(b) => a.as_slice() == b.as_slice(),
                _ => false,
            },
            Value::List(a) => match other {
                Value::List(b) => are_items_same(a.items(), b.items()),
                _ => false,
            },
            Value::Map(a) => match other {
                Value::Map(b) => are_pairs_same(a.pairs(), b.pairs()),
                _ => false,
            },
        }
    }
}

#[cycle(same)]
fn are_items_same(a: &[Value], b: &[Value]) -> bool
    ensures { Decides result (a.now ≡ b.now) }
{
    if a.len() != b.len() {
        return false;
    }
    for i in 0..a.len() {
        if !a[i].same(&b[i]) {
            return false;
        }
    }
    true
}

#[cycle(same)]
fn are_pairs_same(a: &[(Text, Value)], b: &[(Text, Value)]) -> bool
    ensures { Decides result (a.now ≡ b.now) }
{
    if a.len() != b.len() {
        return false;
    }
    for i in 0..a.len() {
        if a[i].0.as_str() != b[i].0.as_str() {
            return false;
        }
        if !a[i].1.same(&b[i].1) {
            return false;
        }
    }
    true
}
