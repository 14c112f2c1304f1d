// How deep the lists and maps of a value nest.
ghost use Rattle.std.specs.Prelude.{◌≡◌, min};
ghost use Rattle.wf_value.specs.Plain.{plain};
ghost use Rattle.wf_value.specs.Data.{depth};

use crate::Value;

impl Value {
    /// How deep lists and maps nest: 0 for what is neither, 1 for one that is empty or holds only
    /// such values. A depth past 4,294,967,295 counts as that.
    pub fn depth(&self) -> u32
        ensures { result ≡ min (depth (plain self.now)) 4294967295 }
    {
        match self {
            Value::List(list) => list.measure().depth,
            Value::Map(map) => map.measure().depth,
            _ => 0,
        }
    }
}
