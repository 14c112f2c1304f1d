// The functions without a point in their name. No crate has them as calls: an expression that calls one is evaluated.
use std::alloc::Global;
use wf_ast::compile;
use wf_cases::CaseFault;
use wf_eval::{Look, eval};
use wf_expr::parse;
use wf_name::Name;
use wf_value::{Map, Raise, Text, Value};

/// The arguments, by the names under which the expression has them.
#[derive(Drop)]
struct Names {
    map: Map,
}

impl Look for Names {
    ghost use Rattle.std.specs.Prelude.{[]};

    ghost sight = { λ n. record { names = n.map; env = []; id = []; base = [] } };

    fn look(&self, name: &Name) -> Option<&Value> {
        self.map.get(name.as_str())
    }

    fn env(&self, key: &str) -> Option<&str> {
        if key == "GOOGLE_CLOUD_WORKFLOW_EXECUTION_ID" {
            Some("")
        } else {
            None
        }
    }
}

/// What a function without a point in its name gives.
pub(crate) fn called(
    alloc: Global,
    name: &str,
    args: &[Value],
) -> Result<Result<Value, Raise>, CaseFault> {
    let given = match args {
        [_] => "a",
        [_, _] => "a, b",
        [_, _, _] => "a, b, c",
        _ => return Err(CaseFault::NoCase),
    };
    let call = format!(in alloc; "{name}({given})")?;
    let names = named(alloc, args)?;
    evaluated(alloc, call.as_str(), &names)
}

/// What an expression gives.
fn evaluated(
    alloc: Global,
    source: &str,
    names: &Names,
) -> Result<Result<Value, Raise>, CaseFault> {
    let Ok(expression) = parse(alloc, source) else {
        return Err(CaseFault::NoCase);
    };
    let code = compile(alloc, &expression)?;
    Ok(eval(alloc, &code, names, 0))
}

fn named(alloc: Global, args: &[Value]) -> Result<Names, CaseFault> {
    let mut map = Map::new(alloc)?;
    for (name, arg) in ["a", "b", "c"].iter().zip(args) {
        map.insert(Text::new(alloc, name)?, arg.copy(alloc)?)?;
    }
    Ok(Names { map })
}
