// What is sent.
ghost use Rattle.wf_engine.specs.Done.{AreClosed};
ghost use Rattle.wf_machine.specs.Seen.{state_of};

use crate::engine::Engine;
use wf_calls::numbers_are_those_of_steps;
use wf_deeds::laws_of_steps;
use wf_host::Host;
use wf_machine::{Machine, Outcome};
use wf_replay::EngineFault;

impl Engine {
    ghost use Rattle.std.specs.Prelude.{◌≡◌, [], true, false, OnErr, OnOk, ◌∷◌};
    ghost use Rattle.wf_deeds.specs.Clauses.{KeptThroughout, those, to_drop, to_start};
    ghost use Rattle.wf_deeds.specs.Memory.{IsSettled};
    ghost use Rattle.wf_engine.specs.Engine.{Holds, is_closed, memory};
    ghost use Rattle.wf_engine.specs.Promises.{SendsTheCalls};
    ghost use Rattle.wf_engine.specs.Sending.{DropsAll, DropsOne, Sent, StartsAll, StartsOne, is_to_drop, is_to_start};
    ghost use Rattle.wf_engine.specs.TheOutside.{InTheOutside};
    ghost use Rattle.wf_host.specs.Calls.{NoCountFalls, OnlyErrors, ReadsAsBefore, TellsAsBefore};
    ghost use Rattle.wf_host.specs.World.{Told};
    ghost use Rattle.wf_model.specs.Config.{Active};
    ghost use Rattle.wf_replay.specs.TheLanguage.{the_language};

    /// Drops each started call that timed out, and starts each open call that this engine hasn't started, in the order of their numbers.
    /// With an outcome it does nothing.
    ///
    /// The error is `OutOfMemory`, and the engine is closed then; or `Closed` exactly where an earlier call has failed.
    pub fn send_open<H: Host>(&mut self, host: &mut H) -> Result<(), EngineFault>
        requires kept { is_closed self.old ≡ false
            → Told (H.world host.old) (Holds self.old (H.world host.old)) }
        requires settled { is_closed self.old ≡ false → IsSettled (memory self.old) }
        ensures { SendsTheCalls H.world H.faults self.old self.new host.old host.new result }
    {
        if self.closed {
            return Err(EngineFault::Closed);
        }
        // laws that the proof uses
        laws_of_steps();
        let Outcome::Active = self.machine.outcome() else {
            return Ok(());
        };
        self.drop_closed(host)?;
        self.start_open(host)?;
        Ok(())
    }

    /// Drops each started call that timed out, and lets go what was heard of those that aren't open.
    fn drop_closed<H: Host>(&mut self, host: &mut H) -> Result<(), EngineFault>
        requires not_closed { is_closed self.old ≡ false }
        requires kept { Told (H.world host.old) (Holds self.old (H.world host.old)) }
        requires settled { IsSettled (memory self.old) }
        ensures sent { OnOk result (Sent (H.world host.old) (H.world host.new) (H.faults host.old)
            (H.faults host.new) self.old self.new (to_drop (memory self.old)) []) }
        ensures any_moment { InTheOutside (λ O. Told (H.world host.old)
            (KeptThroughout the_language O (memory self.old) (H.world host.old)
            (H.world host.new))) }
        ensures drops { OnOk result (DropsAll (memory self.old) (memory self.new)) }
        ensures session { (memory self.new).session ≡ (memory self.old).session }
        ensures seen { ReadsAsBefore H.world host.old host.new }
        ensures closes { OnErr result (is_closed self.new ≡ true) }
        ensures only { OnlyErrors result (EngineFault.OutOfMemory ∷ []) }
        ensures tells { TellsAsBefore H.world host.old host.new }
        ensures counts { NoCountFalls H.faults host.old host.new }
    {
        // laws that the proof uses
        laws_of_steps();
        for place in self.done..self.machine.calls() {
            self.drop_one(host, place + 1)?;
        }
        self.done = closed_from(&self.machine, self.done);
        Ok(())
    }

    /// Drops a call, if it was started and timed out. Where it isn't open what was heard of it is let go.
    fn drop_one<H: Host>(&mut self, host: &mut H, call: u64) -> Result<(), EngineFault>
        requires not_closed { is_closed self.old ≡ false }
        requires kept { Told (H.world host.old) (Holds self.old (H.world host.old)) }
        requires settled { IsSettled (memory self.old) }
        ensures sent { OnOk result (Sent (H.world host.old) (H.world host.new) (H.faults host.old)
            (H.faults host.new) self.old self.new
            (those (is_to_drop (memory self.old)) call 1) []) }
        ensures any_moment { InTheOutside (λ O. Told (H.world host.old)
            (KeptThroughout the_language O (memory self.old) (H.world host.old)
            (H.world host.new))) }
        ensures drops { OnOk result (DropsOne (memory self.old) (memory self.new) call) }
        ensures session { (memory self.new).session ≡ (memory self.old).session }
        ensures seen { ReadsAsBefore H.world host.old host.new }
        ensures closes { OnErr result (is_closed self.new ≡ true) }
        ensures only { OnlyErrors result (EngineFault.OutOfMemory ∷ []) }
        ensures tells { TellsAsBefore H.world host.old host.new }
        ensures counts { NoCountFalls H.faults host.old host.new }
    {
        // laws that the proof uses
        laws_of_steps();
        if self.machine.request(call).is_some() {
            return Ok(());
        }
        if !self.is_to_drop(call) {
            self.connections.forget(call);
            return Ok(());
        }
        // until it is dropped
        self.closed = true;
        host.drop_call(call)?;
        self.connections.drop_call(call);
        self.closed = false;
        Ok(())
    }

    /// Whether a call was started and timed out, and isn't dropped yet.
    fn is_to_drop(&self, call: u64) -> bool
        ensures { result ≡ is_to_drop (memory self.now) call }
    {
        self.machine.has_timed_out(call)
            && self.connections.is_started(call)
            && !self.connections.is_dropped(call)
    }

    /// Starts each open call that wasn't started.
    fn start_open<H: Host>(&mut self, host: &mut H) -> Result<(), EngineFault>
        requires not_closed { is_closed self.old ≡ false }
        requires kept { Told (H.world host.old) (Holds self.old (H.world host.old)) }
        requires settled { IsSettled (memory self.old) }
        requires active { (memory self.old).config.outcome ≡ Active }
        ensures sent { OnOk result (Sent (H.world host.old) (H.world host.new) (H.faults host.old)
            (H.faults host.new) self.old self.new [] (to_start (memory self.old))) }
        ensures any_moment { InTheOutside (λ O. Told (H.world host.old)
            (KeptThroughout the_language O (memory self.old) (H.world host.old)
            (H.world host.new))) }
        ensures starts { OnOk result (StartsAll (memory self.old) (memory self.new)) }
        ensures session { (memory self.new).session ≡ (memory self.old).session }
        ensures seen { ReadsAsBefore H.world host.old host.new }
        ensures closes { OnErr result (is_closed self.new ≡ true) }
        ensures only { OnlyErrors result (EngineFault.OutOfMemory ∷ []) }
        ensures tells { TellsAsBefore H.world host.old host.new }
        ensures counts { NoCountFalls H.faults host.old host.new }
    {
        // laws that the proof uses
        laws_of_steps();
        for place in self.done..self.machine.calls() {
            self.start_one(host, place + 1)?;
        }
        Ok(())
    }

    /// Starts a call, if it is open and wasn't started.
    fn start_one<H: Host>(&mut self, host: &mut H, call: u64) -> Result<(), EngineFault>
        requires not_closed { is_closed self.old ≡ false }
        requires kept { Told (H.world host.old) (Holds self.old (H.world host.old)) }
        requires settled { IsSettled (memory self.old) }
        requires active { (memory self.old).config.outcome ≡ Active }
        ensures sent { OnOk result (Sent (H.world host.old) (H.world host.new) (H.faults host.old)
            (H.faults host.new) self.old self.new []
            (those (is_to_start (memory self.old)) call 1)) }
        ensures any_moment { InTheOutside (λ O. Told (H.world host.old)
            (KeptThroughout the_language O (memory self.old) (H.world host.old)
            (H.world host.new))) }
        ensures starts { OnOk result (StartsOne (memory self.old) (memory self.new) call) }
        ensures session { (memory self.new).session ≡ (memory self.old).session }
        ensures seen { ReadsAsBefore H.world host.old host.new }
        ensures closes { OnErr result (is_closed self.new ≡ true) }
        ensures only { OnlyErrors result (EngineFault.OutOfMemory ∷ []) }
        ensures tells { TellsAsBefore H.world host.old host.new }
        ensures counts { NoCountFalls H.faults host.old host.new }
    {
        // laws that the proof uses
        laws_of_steps();
        if self.connections.is_started(call) {
            return Ok(());
        }
        let Some(request) = self.machine.request(call) else {
            return Ok(());
        };
        // until it is started
        self.closed = true;
        host.start(call, &request.address, request.bytes.as_slice())?;
        self.connections.start(self.alloc, call)?;
        self.closed = false;
        Ok(())
    }
}

/// The number up to which all calls are closed, where those up to another one are.
fn closed_from(machine: &Machine, done: u64) -> u64
    requires { AreClosed (state_of machine.now).config done }
    ensures { AreClosed (state_of machine.now).config result }
{
    // a law that the proof uses
    numbers_are_those_of_steps();
    match machine.next_open(done) {
        Some(open) => open - 1,
        None => machine.calls(),
    }
}
