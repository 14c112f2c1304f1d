// What stands around a body.
ghost use Rattle.std.specs.Prelude.{IfOk, ℕ, List, [], ◌∷◌};
ghost use Rattle.wf_table.specs.Made.{StandsIn};

use wf_value::OutOfMemory;

/// Whose list of steps a body stands in, if a jump from it may reach one, and how many such lists there are.
#[derive(Clone, Copy)]
pub(crate) struct Here {
    pub(crate) owner: Option<u32>,
    pub(crate) depth: u32,
}

impl Here {
    /// In no list.
    pub(crate) fn outside() -> Here
        ensures { StandsIn result [] }
    {
        Here {
            owner: None,
            depth: 0,
        }
    }

    /// In the list of this node, which a jump doesn't leave.
    pub(crate) fn alone(owner: u32) -> Here
        ensures { StandsIn result (owner ∷ []) }
    {
        Here {
            owner: Some(owner),
            depth: 1,
        }
    }

    /// In the list of this node, within the others.
    pub(crate) fn inside(self, owner: u32) -> Result<Here, OutOfMemory>
        ensures { IfOk result (λ inner. (os : List ℕ) → StandsIn self os
            → StandsIn inner (owner ∷ os)) }
    {
        match self.depth.checked_add(1) {
            Some(depth) => Ok(Here {
                owner: Some(owner),
                depth,
            }),
            None => Err(OutOfMemory),
        }
    }
}
