// What is printed of values, faults and errors.
use std::alloc::Global;
use wf_cases::{CaseFault, json_of};
use wf_expr::ExprFault;
use wf_span::LexFault;
use wf_value::{Raise, Text, Value};

/// Values of a greater size are told by it.
const MOST_SHOWN: u64 = 100_000;

/// A value as JSON, or the size of a large one.
pub(crate) fn value_text(alloc: Global, value: &Value) -> Result<String, CaseFault> {
    let size = value.size();
    if size > MOST_SHOWN {
        return Ok(format!(in alloc; "size {size}")?);
    }
    json_of(alloc, value)
}

/// A text as JSON.
pub(crate) fn quoted(alloc: Global, text: &str) -> Result<String, CaseFault> {
    value_text(alloc, &Value::Text(Text::new(alloc, text)?))
}

/// What an evaluation comes to.
pub(crate) fn outcome(alloc: Global, made: Result<Value, Raise>) -> Result<String, CaseFault> {
    match made {
        Ok(value) => value_text(alloc, &value),
        Err(Raise::Error(tag)) => Ok(String::from_str(alloc, tag.name())?),
        Err(Raise::OutOfMemory) => Err(CaseFault::OutOfMemory),
    }
}

/// The fault of an expression.
pub(crate) fn fault_text(alloc: Global, fault: ExprFault) -> Result<String, CaseFault> {
    let (kind, at) = match fault {
        ExprFault::TooLong => return Ok(String::from_str(alloc, "TooLong")?),
        ExprFault::Lex(LexFault::BadCharacter(at)) => ("BadCharacter", at),
        ExprFault::Lex(LexFault::OpenText(at)) => ("OpenText", at),
        ExprFault::Syntax(at) => ("Syntax", at),
        ExprFault::Decimal(at) => ("Decimal", at),
        ExprFault::UnknownFunction(at) => ("UnknownFunction", at),
        ExprFault::Arity(at) => ("Arity", at),
        ExprFault::Lex(LexFault::OutOfMemory) | ExprFault::OutOfMemory => {
            return Err(CaseFault::OutOfMemory);
        }
    };
    Ok(format!(in alloc; "{kind} at {at}")?)
}
