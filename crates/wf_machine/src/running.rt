// Moves of `main` that follow one another.
ghost use Rattle.std.specs.Prelude.{◌≡◌, ◌<◌, ◌+◌, ℕ, true, false, IfOk, IsFalse, IsTrue, Ok, OnErr, OnOk};
ghost use Rattle.wf_check.specs.Seen.{program_of};
ghost use Rattle.wf_frames.specs.Owned.{Around};
ghost use Rattle.wf_machine.specs.Causes.{around_at};
ghost use Rattle.wf_machine.specs.Runs.{IsMove, IsOut, IsPlain, NoMoreMoves, shown_by};
ghost use Rattle.wf_machine.specs.Seen.{shown, state_of};
ghost use Rattle.wf_machine.specs.State.{is_running};

use crate::ending::ending_of;
use crate::machine::Machine;
use crate::moving::MOVE_LIMIT;
use crate::task::{Cause, go_on, kind_of};
use wf_frames::Kind;
use wf_model::laws_of_waits;
use wf_never_wrong::laws_of_places;
use wf_value::OutOfMemory;

impl Machine {
    /// Where the execution runs and `main` alone is live, a run of moves begins that read no clock. Until it is over the machine counts as
    /// broken.
    #[inline(always)]
    pub(crate) fn set_out(&mut self) -> bool
        requires whole { self.old.broken ≡ false }
        ensures out { IsTrue result → IsOut self.new }
        ensures shown { IsTrue result → shown self.new ≡ (state_of self.old).config }
        ensures none { IsFalse result → state_of self.new ≡ state_of self.old }
        ensures ended { IsFalse result → (reading : ℕ) → NoMoreMoves (state_of self.old) reading }
        ensures program { program_of self.new.program ≡ program_of self.old.program }
    {
        if !self.ending.is_running() {
            return false;
        }
        if self.moving.len() != 1 {
            return false;
        }
        self.broken = true;
        self.facts.of_step.now = 0;
        self.facts.of_step.last = self.tally.last;
        self.facts.of_step.deeper = true;
        self.facts.sending.calls = self.calls.count();
        self.facts.sending.logged = self.log.size();
        true
    }

    /// Whether the next move of `main` reads no clock and is carried out.
    #[inline(always)]
    pub(crate) fn is_plain(&self) -> bool
        requires { IsOut self.now }
        ensures some { IsTrue result → IsPlain self.now }
        ensures none { IsFalse result → IsPlain self.now → ⊥ }
    {
        let task = &self.moving[0];
        if self.tally.moves + 1 >= MOVE_LIMIT {
            return false;
        }
        if !task.is_awake() {
            return false;
        }
        kind_of(&self.program, self.wants.as_slice(), task) == Kind::Plain
    }

    /// `main` takes its next move. It gives whether `main` goes on; else the execution has ended. Without memory the machine is only to be
    /// let go.
    #[inline(always)]
    pub(crate) fn move_on(&mut self) -> Result<bool, OutOfMemory>
        ghost around: { Around }
        requires around { around ≡ around_at self.old 0 0 }
        requires out { IsOut self.old }
        requires plain { IsPlain self.old }
        ensures moves { IfOk result (λ goes. (reading : ℕ)
            → IsMove reading (program_of self.old.program) (shown self.old)
            (shown_by goes self.new)) }
        ensures out { result ≡ Ok true → IsOut self.new }
        ensures whole { result ≡ Ok false → self.new.broken ≡ false }
        ensures ended { result ≡ Ok false → is_running self.new.ending ≡ false }
        ensures broken { OnErr result (self.new.broken ≡ true) }
        ensures program { OnOk result
            (program_of self.new.program ≡ program_of self.old.program) }
    {
        // laws that the proof uses
        laws_of_places();
        laws_of_waits();
        let did = go_on(
            &self.program,
            self.targets.as_slice(),
            &self.facts,
            &mut self.moving[0],
            &mut self.scopes,
            &mut self.calls,
            Cause::Step,
        )?;
        let ended = ending_of(0, did, self.tally.last, &mut self.calls, &mut self.log)?;
        self.tally.moves += 1;
        match ended {
            None => {
                let awake = self.moving[0].is_awake();
                self.tasks.mark(0, !awake);
                self.facts.sending.calls = self.calls.count();
                self.facts.sending.logged = self.log.size();
                Ok(true)
            }
            Some(ending) => {
                self.tasks.clear();
                self.moving.truncate(0);
                self.broken = false;
                self.ending = ending;
                Ok(false)
            }
        }
    }

    /// The run is over, and the execution goes on.
    #[inline(always)]
    pub(crate) fn come_back(&mut self)
        requires { IsOut self.old }
        ensures { state_of self.new ≡ record {
          program = program_of self.old.program;
          config = shown self.old;
          broken = false;
        } }
    {
        self.broken = false;
    }
}
