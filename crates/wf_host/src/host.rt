// The trait of the outside.
ghost use Rattle.std.specs.Prelude.{◌≡◌, ◌≤◌, ◌+◌, ◌-◌, ◌++◌, ◌∷◌, [], min, List, ℕ, length, take, drop, IsTrue, IfOk, OnOk, OnErr, IsErrOf, MatchResult, None};
ghost use Rattle.wf_host.specs.declared.data.Deed.{Deed};
ghost use Rattle.wf_host.specs.declared.data.Deed.TheVariants.{Start, Poll, Now, Drop, Print};
ghost use Rattle.wf_host.specs.World.{World, Faults, longest, piece_len, visit_of, Told, Holds, Torn, Same, Only, Elapses, Rose, NoneFell};

use crate::{Address, Failed, Heard, PollError};
use wf_value::OutOfMemory;

/// No file is longer, in bytes.
pub const LONGEST: u64 = 9_223_372_036_854_775_807;

/// A journal file, a clock and an output in one object, so that one order of moments covers them.
/// Whether a host tells what it stands for never changes. All but the counts of faults holds where it tells.
pub trait Host {
    /// What it stands for.
    ghost world: { Self → World };

    /// How often each part of it has failed. No count falls.
    ghost faults: { Self → Faults };

    /// The length of the journal file in bytes, 0 where there is none. It is at most 9,223,372,036,854,775,807.
    fn size(&mut self) -> Result<u64, Failed>
        ensures value { Told (world self.old)
            (IfOk result (λ n. n ≡ length (world self.old).seen)) }
        ensures bound { IfOk result (λ n. n ≤ longest) }
        ensures seen { Told (world self.old) ((world self.new).seen ≡ (world self.old).seen) }
        ensures time { Told (world self.old) (Elapses Same [] (world self.old) (world self.new)) }
        ensures tells { (world self.new).tells ≡ (world self.old).tells }
        ensures counts { NoneFell (faults self.old) (faults self.new) }
        ensures cause { OnErr result (Rose (faults self.old).disk (faults self.new).disk) };

    /// Fills the room with the bytes at an offset, as far as the file reaches.
    fn read_at(&mut self, at: u64, into: &mut [u8]) -> Result<usize, Failed>
        requires { at ≤ longest }
        ensures count { Told (world self.old)
            (IfOk result (λ n. n ≡ min (length into.old) (length (world self.old).seen - at))) }
        ensures bytes { Told (world self.old)
            (IfOk result (λ n. into.new
            ≡ take n (drop at (world self.old).seen) ++ drop n into.old)) }
        ensures bound { IfOk result (λ n. n ≤ length into.old) }
        ensures seen { Told (world self.old) ((world self.new).seen ≡ (world self.old).seen) }
        ensures time { Told (world self.old) (Elapses Same [] (world self.old) (world self.new)) }
        ensures tells { (world self.new).tells ≡ (world self.old).tells }
        ensures counts { NoneFell (faults self.old) (faults self.new) }
        ensures cause { OnErr result (Rose (faults self.old).disk (faults self.new).disk) };

    /// Writes at or before the end, and makes the file longer where needed. Until a sync a crash may leave any bytes
    /// in the range and past the old end, and any length from the old one to the new one. A write that would pass
    /// the longest file fails.
    fn write_at(&mut self, at: u64, bytes: &[u8]) -> Result<(), Failed>
        requires most { at ≤ longest }
        requires inside { Told (world self.old) (at ≤ length (world self.old).seen) }
        ensures written { Told (world self.old)
            (OnOk result (Holds (world self.old).seen at bytes.now (world self.new).seen)) }
        ensures room { OnOk result (at + length bytes.now ≤ longest) }
        ensures time { Told (world self.old)
            (Elapses (Torn at (length bytes.now)) [] (world self.old) (world self.new)) }
        ensures tells { (world self.new).tells ≡ (world self.old).tells }
        ensures counts { NoneFell (faults self.old) (faults self.new) }
        ensures cause { OnErr result (Rose (faults self.old).disk (faults self.new).disk) };

    /// Makes what a read gives stable.
    fn sync(&mut self) -> Result<(), Failed>
        ensures durable { Told (world self.old)
            (OnOk result (Only (world self.old).seen (world self.new).may_leave)) }
        ensures seen { Told (world self.old) ((world self.new).seen ≡ (world self.old).seen) }
        ensures time { Told (world self.old) (Elapses Same [] (world self.old) (world self.new)) }
        ensures tells { (world self.new).tells ≡ (world self.old).tells }
        ensures counts { NoneFell (faults self.old) (faults self.new) }
        ensures cause { OnErr result (Rose (faults self.old).disk (faults self.new).disk) };

    /// A reading of the clock, in milliseconds since 1970. On an error there is no deed.
    fn now(&mut self) -> Result<u64, OutOfMemory>
        ensures seen { Told (world self.old) ((world self.new).seen ≡ (world self.old).seen) }
        ensures time { Told (world self.old)
            (MatchResult result (λ t. Elapses Same (Now t ∷ []) (world self.old) (world self.new))
            (λ _. Elapses Same [] (world self.old) (world self.new))) }
        ensures tells { (world self.new).tells ≡ (world self.old).tells }
        ensures counts { NoneFell (faults self.old) (faults self.new) };

    /// Begins to send a call of this number. A connection that is refused is heard later as broken. On an error there
    /// is no deed.
    fn start(&mut self, call: u64, to: &Address, bytes: &[u8]) -> Result<(), OutOfMemory>
        ensures seen { Told (world self.old) ((world self.new).seen ≡ (world self.old).seen) }
        ensures time { Told (world self.old) (MatchResult result
            (λ _. Elapses Same (Start call to.now bytes.now ∷ []) (world self.old) (world self.new))
            (λ _. Elapses Same [] (world self.old) (world self.new))) }
        ensures tells { (world self.new).tells ≡ (world self.old).tells }
        ensures counts { NoneFell (faults self.old) (faults self.new) };

    /// Waits for something to be heard, at most to a moment of the clock. On an error there is no deed.
    fn poll(&mut self, until: u64) -> Result<Heard, PollError>
        ensures piece { IfOk result (λ h. piece_len h.what ≤ 65536) }
        ensures calls_alone { IfOk result (λ h. visit_of h.what ≡ None) }
        ensures seen { Told (world self.old) ((world self.new).seen ≡ (world self.old).seen) }
        ensures time { Told (world self.old) (MatchResult result
            (λ h. Elapses Same (Poll until h ∷ []) (world self.old) (world self.new))
            (λ _. Elapses Same [] (world self.old) (world self.new))) }
        ensures tells { (world self.new).tells ≡ (world self.old).tells }
        ensures counts { NoneFell (faults self.old) (faults self.new) }
        ensures cause { IsErrOf result PollError.Failed → Rose (faults self.old).poll (faults self.new).poll };

    /// Forgets a call, of which nothing more is heard. On an error there is no deed, and the call isn't forgotten.
    fn drop_call(&mut self, call: u64) -> Result<(), OutOfMemory>
        ensures seen { Told (world self.old) ((world self.new).seen ≡ (world self.old).seen) }
        ensures time { Told (world self.old) (MatchResult result
            (λ _. Elapses Same (Drop call ∷ []) (world self.old) (world self.new))
            (λ _. Elapses Same [] (world self.old) (world self.new))) }
        ensures tells { (world self.new).tells ≡ (world self.old).tells }
        ensures counts { NoneFell (faults self.old) (faults self.new) };

    /// Takes a prefix of the bytes, of which there is at least one, and says how long it is. On an error there is no deed.
    fn print(&mut self, bytes: &[u8]) -> Result<usize, Failed>
        requires { 1 ≤ length bytes.now }
        ensures bound { IfOk result (λ n. n ≤ length bytes.now) }
        ensures seen { Told (world self.old) ((world self.new).seen ≡ (world self.old).seen) }
        ensures time { Told (world self.old)
            (MatchResult result (λ n. Elapses Same (Print (take n bytes.now) ∷ []) (world self.old)
            (world self.new)) (λ _. Elapses Same [] (world self.old) (world self.new))) }
        ensures tells { (world self.new).tells ≡ (world self.old).tells }
        ensures counts { NoneFell (faults self.old) (faults self.new) }
        ensures cause { OnErr result (Rose (faults self.old).print (faults self.new).print) };

    /// What a crash now may leave counts among what it may have left since an earlier moment.
    ghost counts_now: { (h : Self) (t : ℕ) (c : List ℕ) → IsTrue (world h).tells → t ≤ (world h).moment → (world h).may_leave c → (world h).left_since t c (world h).deeds };

    /// Since this moment there is no other pair.
    ghost only_now: { (h : Self) (c : List ℕ) (d : List Deed) → IsTrue (world h).tells → (world h).left_since (world h).moment c d → (world h).may_leave c × (d ≡ (world h).deeds) };

    /// The file as it reads is one of its images.
    ghost reads_back: { (h : Self) → IsTrue (world h).tells → (world h).may_leave (world h).seen };

    /// No file is longer.
    ghost fits: { (h : Self) → IsTrue (world h).tells → length (world h).seen ≤ longest };
}
