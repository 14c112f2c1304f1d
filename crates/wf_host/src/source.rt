// The trait of what is read.
ghost use Rattle.std.specs.Prelude.{◌≡◌, ◌≤◌, ◌<◌, ℕ, length, take, IfOk, OnErr};
ghost use Rattle.std.specs.Io.KnownBytes.{IsAtEnd};
ghost use Rattle.wf_host.specs.World.{Rose};
ghost use Rattle.wf_host.specs.Source.{Rest, HoldsRest};

use crate::Failed;

/// Bytes that are read from the front. Whether a source tells what it has left never changes.
pub trait Source {
    /// The bytes that weren't read yet, where it tells them.
    ghost left: { Self → Rest };

    /// How often a read has failed. The count doesn't fall.
    ghost faults: { Self → ℕ };

    /// Gives the next bytes, in front of the room. None for room that isn't empty is the end: all was read.
    /// A read that failed took nothing of what was left.
    fn read(&mut self, into: &mut [u8]) -> Result<usize, Failed>
        ensures bound { IfOk result (λ n. n ≤ length into.old) }
        ensures bytes { IfOk result (λ n. HoldsRest (left self.old) (left self.new)
            (take n into.new)) }
        ensures end { IfOk result (λ n. n ≡ 0 → 0 < length into.old → IsAtEnd (left self.old)) }
        ensures stays { OnErr result (left self.new ≡ left self.old) }
        ensures counts { faults self.old ≤ faults self.new }
        ensures cause { OnErr result (Rose (faults self.old) (faults self.new)) };
}
