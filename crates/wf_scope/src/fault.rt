// What can be wrong with an assignment.
ghost use Rattle.std.specs.Prelude.{◌≡◌};
ghost use Rattle.wf_scope.specs.Faults.{raised};

use wf_value::{Raise, Tag};

/// Why a variable wasn't bound or assigned. Of several causes the first one here is told; but a place is looked at only where those
/// before it are there.
#[derive(Debug, Clone, Copy, PartialEq, Eq)]
pub enum AssignFault {
    /// There is no variable of this name, and the target has places; or a place but the last names a key that its map hasn't.
    MissingKey,
    /// An index is below 0 or past the end of its list.
    BadIndex,
    /// A place is a key of what is no map, or an index of what is no list.
    NotAContainer,
    /// All variables together would come to more than the limit.
    TooLarge,
    /// The variable would nest deeper than 100.
    TooDeep,
    /// There is no memory.
    OutOfMemory,
}

impl AssignFault {
    /// The error that the program meets.
    pub fn raise(self) -> Raise
        ensures { result ≡ raised self }
    {
        match self {
            AssignFault::MissingKey => Raise::Error(Tag::KeyError),
            AssignFault::BadIndex => Raise::Error(Tag::IndexError),
            AssignFault::NotAContainer => Raise::Error(Tag::TypeError),
            AssignFault::TooLarge | AssignFault::TooDeep => Raise::Error(Tag::ResourceLimitError),
            AssignFault::OutOfMemory => Raise::OutOfMemory,
        }
    }
}
