// Refusals, and which of two speaks.
use crate::kinds::name_of;
use crate::scalars::shown;
use crate::texts::word;
use std::alloc::Global;
use wf_cases::{Case, CaseFault};
use wf_tree::Tree;
use wf_value::Value;
use wf_yaml_line::{
    Fault, Kind, YamlFault, both_noted, first_of_two, least, noting, noting_after, refuse_if,
};

const KINDS: [Kind; 10] = [
    Kind::Tab,
    Kind::Indentation,
    Kind::DoubleKey,
    Kind::Anchor,
    Kind::Tag,
    Kind::Flow,
    Kind::Quote,
    Kind::Decimal,
    Kind::Unsupported,
    Kind::TooDeep,
];

/// What a call on refusals answers. A refusal is a list of a kind and a line, and null stands where nothing was noted.
pub(crate) fn fault(alloc: Global, case: &Case<'_>) -> Result<String, CaseFault> {
    let (first, second) = (case.item(0)?, case.item(1)?);
    match case.table {
        "first_of_two" => {
            let fault = first_of_two(refusal(alloc, first)?, refusal(alloc, second)?);
            told(alloc, Some(fault))
        }
        "least" => {
            let fault = least(noted(alloc, first)?, refusal(alloc, second)?);
            told(alloc, Some(fault))
        }
        "both_noted" => {
            let fault = both_noted(noted(alloc, first)?, noted(alloc, second)?);
            told(alloc, fault)
        }
        "refuse_if" => {
            let Value::Bool(holds) = first else {
                return Err(CaseFault::NoCase);
            };
            let wanted = refusal(alloc, second)?;
            told(alloc, refuse_if(*holds, wanted.line, wanted.kind))
        }
        "noting" => {
            let tree = noting(noted(alloc, first)?, read(alloc, second)?);
            shown(alloc, &tree)
        }
        "noting_after" => {
            let tree = noting_after(read(alloc, first)?, noted(alloc, second)?);
            shown(alloc, &tree)
        }
        _ => Err(CaseFault::NoCase),
    }
}

/// What was noted.
fn noted(alloc: Global, item: &Value) -> Result<Option<Fault>, CaseFault> {
    match item {
        Value::Null => Ok(None),
        _ => Ok(Some(refusal(alloc, item)?)),
    }
}

/// What was read: null, a number, a refusal, or `no memory`.
fn read(alloc: Global, item: &Value) -> Result<Result<Tree, YamlFault>, CaseFault> {
    match item {
        Value::Null => Ok(Ok(Tree::Null)),
        Value::Int(number) => Ok(Ok(Tree::Int(*number))),
        Value::Text(_) => Ok(Err(YamlFault::OutOfMemory)),
        _ => Ok(Err(YamlFault::Refused(refusal(alloc, item)?))),
    }
}

fn refusal(alloc: Global, item: &Value) -> Result<Fault, CaseFault> {
    let Value::List(pair) = item else {
        return Err(CaseFault::NoCase);
    };
    let [Value::Text(name), Value::Int(line)] = pair.items() else {
        return Err(CaseFault::NoCase);
    };
    let Ok(line) = u32::try_from(*line) else {
        return Err(CaseFault::NoCase);
    };
    for kind in KINDS {
        if name_of(kind) == name.as_str() {
            return Ok(Fault { line, kind });
        }
    }
    Err(CaseFault::NoCase)
}

fn told(alloc: Global, fault: Option<Fault>) -> Result<String, CaseFault> {
    match fault {
        Some(fault) => Ok(format!(in alloc; "{} at {}", name_of(fault.kind), fault.line)?),
        None => word(alloc, "none"),
    }
}
