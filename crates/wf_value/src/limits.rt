// The limits of values.
ghost use Rattle.std.specs.Prelude.{◌≡◌};
ghost use Rattle.wf_value.specs.Data.{depth_limit, size_limit};

/// The greatest size of a value (`Value::size`).
pub const MAX_SIZE: u64 = 4_194_304;

/// How deep lists and maps nest in each other, at most (`Value::depth`).
pub const MAX_DEPTH: u32 = 100;

/// The limits are those of the definitions. The function does nothing.
pub fn limits_are_as_defined()
    ensures size { MAX_SIZE ≡ size_limit }
    ensures depth { MAX_DEPTH ≡ depth_limit }
{}
