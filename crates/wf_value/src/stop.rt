// What stops the walk through a document.
ghost use Rattle.wf_value.specs.Stops.{IsHere, IsOutside};
ghost use Rattle.wf_value.specs.declared.path.PathPart.TheVariants.{Index, Key};

use crate::{OutOfMemory, PathPart, Text};
use std::alloc::Global;

/// A fault of some kind, with the way from the part in hand to it, the last step first; or want of
/// memory.
#[derive(Drop)]
pub enum Stop<K> {
    /// The fault, and the way to it.
    Refused(K, Vec<PathPart>),
    /// There is no memory.
    OutOfMemory,
}

impl<K> From<OutOfMemory> for Stop<K> {
    ghost use Rattle.std.specs.Prelude.{◌≡◌};
    ghost use Rattle.wf_value.specs.declared.stop.Stop.TheVariants as stop;

    ghost from_gives = { λ _ s. s ≡ stop.OutOfMemory };

    fn from(_: OutOfMemory) -> Stop<K> {
        Stop::OutOfMemory
    }
}

impl<K: Drop> Stop<K> {
    /// A fault of the part itself.
    pub fn here(alloc: Global, kind: K) -> Stop<K>
        ensures { IsHere kind result }
    {
        Stop::Refused(kind, Vec::new(alloc))
    }

    /// The same, told from the map in which the part stands at a key.
    pub fn at_key(self, alloc: Global, key: &str) -> Stop<K>
        ensures { IsOutside (Key key.now) self result }
    {
        match Text::new(alloc, key) {
            Ok(key) => self.outside(PathPart::Key(key)),
            Err(_) => Stop::OutOfMemory,
        }
    }

    /// The same, told from the list in which the part stands at an index.
    pub fn at_index(self, index: usize) -> Stop<K>
        ensures { IsOutside (Index index) self result }
    {
        self.outside(PathPart::Index(index as u64))
    }

    fn outside(self, part: PathPart) -> Stop<K>
        ensures { IsOutside part self result }
    {
        match self {
            Stop::Refused(kind, mut way) => match way.push(part) {
                Ok(()) => Stop::Refused(kind, way),
                Err(_) => Stop::OutOfMemory,
            },
            Stop::OutOfMemory => Stop::OutOfMemory,
        }
    }
}
