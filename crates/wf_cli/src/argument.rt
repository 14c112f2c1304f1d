// The argument that an execution is started with.
ghost use Rattle.std.specs.Prelude.{◌≡◌, ◌≤◌, None, Some, IfOk, OnOk, IsErrOf};
ghost use Rattle.wf_args.specs.Plain.{plain_line};
ghost use Rattle.wf_engine.specs.Starts.{HasArgument, argument_text, said_argument};
ghost use Rattle.wf_value.specs.Data.{depth};
ghost use Rattle.wf_value.specs.Plain.{plain};

use std::alloc::Global;
use wf_args::Line;
use wf_value::{
    Bytes, JsonFault, OutOfMemory, Value, from_json, reading_is_a_function, reading_is_decided,
    to_json,
};

/// The most that an argument may count.
const ARGUMENT_LIMIT: u64 = 32_768;

/// Why a line has no argument.
#[derive(Clone, Copy)]
pub(crate) enum ArgumentFault {
    /// The word of `--args` is no JSON of a value, or its value counts more than the limit.
    Bad,
    /// There is no memory.
    OutOfMemory,
}

impl From<OutOfMemory> for ArgumentFault {
    ghost use Rattle.wf_cli.specs.declared.argument.ArgumentFault.TheVariants as ArgumentFault;

    ghost from_gives = { λ _ f. f ≡ ArgumentFault.OutOfMemory };

    fn from(_cause: OutOfMemory) -> ArgumentFault {
        ArgumentFault::OutOfMemory
    }
}

impl From<JsonFault> for ArgumentFault {
    ghost use Rattle.wf_cli.specs.Said.{argument_fault};

    ghost from_gives = { λ fault f. f ≡ argument_fault fault };

    fn from(fault: JsonFault) -> ArgumentFault {
        match fault {
            JsonFault::NotJson | JsonFault::Decimal | JsonFault::TooDeep => ArgumentFault::Bad,
            JsonFault::OutOfMemory => ArgumentFault::OutOfMemory,
        }
    }
}

/// The value that the word of `--args` says, and null without the option.
fn value_of(alloc: Global, line: &Line<'_>) -> Result<Value, ArgumentFault>
    ensures value { IfOk result (λ v. said_argument (plain_line line.now) ≡ Some (plain v)) }
    ensures shallow { IfOk result (λ v. depth (plain v) ≤ 100) }
    ensures bad { IsErrOf result ArgumentFault.Bad → said_argument (plain_line line.now) ≡ None }
{
    // laws that the proof uses
    reading_is_a_function();
    reading_is_decided();
    match line.args() {
        Some(word) => Ok(from_json(alloc, word.as_bytes())?),
        None => Ok(Value::Null),
    }
}

/// What JSON writes of that value. `Bad` comes exactly where there is none, or where it counts more than 32,768.
pub(crate) fn read_argument(alloc: Global, line: &Line<'_>) -> Result<Bytes, ArgumentFault>
    ensures text { IfOk result (λ t. t ≡ argument_text (plain_line line.now)) }
    ensures has { OnOk result (HasArgument (plain_line line.now)) }
    ensures bad { IsErrOf result ArgumentFault.Bad → ¬ HasArgument (plain_line line.now) }
{
    let value = value_of(alloc, line)?;
    if value.size() > ARGUMENT_LIMIT {
        return Err(ArgumentFault::Bad);
    }
    let text = to_json(alloc, &value)?;
    Ok(Bytes::new(alloc, text.as_slice())?)
}
