// What a step may read of its execution.
use wf_value::{Pairs, Text};

/// What a step may read of its execution: the reading of the clock that it sees and the last reading, both in milliseconds, the address
/// under which callbacks come, the id, and the environment; and whether the task may stand in a parallel step more.
pub struct Facts {
    pub now: u64,
    pub last: u64,
    pub deeper: bool,
    pub base: Text,
    pub id: Text,
    pub env: Pairs,
}

// Written, and not derived: it is one call wherever facts are let go.
impl Drop for Facts {
    fn drop(self) {
        let Facts {
            now: _,
            last: _,
            deeper: _,
            base: _,
            id: _,
            env: _,
        } = self;
    }
}
