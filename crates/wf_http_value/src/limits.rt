// What is raised, and the limits of what is given.
ghost use Rattle.std.specs.Prelude.{◌≢◌, Err};
ghost use Rattle.wf_http_value.specs.Gives.{GivesOrRaises};
ghost use Rattle.wf_value.specs.Errors.{as_result, error_map, nested_error};
ghost use Rattle.wf_value.specs.Plain.{plain};
ghost use Rattle.wf_value.specs.declared.Tag.TheVariants.{HttpError, UnhandledBranchError};

use crate::ReplyFault;
use std::alloc::Global;
use wf_value::{MAX_DEPTH, MAX_SIZE, Tag, Value, error_map};

/// Raises the error with this tag.
pub(crate) fn raise(alloc: Global, tag: Tag) -> Result<Value, ReplyFault>
    requires no_answer { tag ≢ HttpError }
    requires no_branches { tag ≢ UnhandledBranchError }
    ensures { GivesOrRaises result (Err (error_map tag)) }
{
    Err(ReplyFault::Raised(error_map(alloc, tag)?))
}

/// Raises this error, or a ResourceLimitError where it nests too deep.
pub(crate) fn raise_nested(alloc: Global, error: Value) -> Result<Value, ReplyFault>
    ensures { GivesOrRaises result (Err (nested_error (plain error))) }
{
    if error.depth() <= MAX_DEPTH {
        Err(ReplyFault::Raised(error))
    } else {
        raise(alloc, Tag::ResourceLimitError)
    }
}

/// The value, if it keeps within the limits on size and on nesting.
pub(crate) fn kept(alloc: Global, value: Value) -> Result<Value, ReplyFault>
    ensures { GivesOrRaises result (as_result (plain value)) }
{
    if value.size() <= MAX_SIZE && value.depth() <= MAX_DEPTH {
        Ok(value)
    } else {
        raise(alloc, Tag::ResourceLimitError)
    }
}
