// A session: turns, what is sent, and waits.
use crate::engine::Engine;
use wf_deeds::laws_of_steps;
use wf_host::Host;
use wf_machine::Outcome;
use wf_replay::EngineFault;

impl Engine {
    ghost use Rattle.std.specs.Prelude.{◌≡◌, ◌+◌, ◌<◌, ◌^◌, true, false, IsErrOf, OnErr, OnOk, ◌∷◌, []};
    ghost use Rattle.wf_deeds.specs.Clauses.{AddsTurns, KeptThroughout, KeptWithin, Waits};
    ghost use Rattle.wf_deeds.specs.Memory.{IsSettled};
    ghost use Rattle.wf_engine.specs.Engine.{Holds, is_closed, memory};
    ghost use Rattle.wf_engine.specs.Promises.{RunsASession};
    ghost use Rattle.wf_engine.specs.TheOutside.{InTheOutside};
    ghost use Rattle.wf_host.specs.Calls.{DiskFailed, NoCountFalls, OnlyErrors, TellsAsBefore};
    ghost use Rattle.wf_host.specs.World.{Rose, Told};
    ghost use Rattle.wf_model.specs.Config.{Active};
    ghost use Rattle.wf_replay.specs.TheLanguage.{the_language};

    /// Adds turns, sends what is open and polls until the least due moment, again and again, until there is an outcome. It polls at most
    /// `waits` times.
    ///
    /// The error is `Suspended` exactly where it has polled so often, and there is no outcome: the engine stays open then, and stands for
    /// what was done. It is `PollFault` where a poll failed. The other errors are those of [`Engine::turn`].
    pub fn session<H: Host>(&mut self, host: &mut H, waits: u32) -> Result<(), EngineFault>
        requires kept { is_closed self.old ≡ false
            → Told (H.world host.old) (Holds self.old (H.world host.old)) }
        requires room { (memory self.old).waits + waits < 2 ^ 64 }
        ensures { RunsASession H.world H.faults self.old self.new host.old host.new waits result }
    {
        if self.closed {
            return Err(EngineFault::Closed);
        }
        self.settle(host)?;
        let mut left = waits;
        loop {
            let Outcome::Active = self.machine.outcome() else {
                return Ok(());
            };
            if left == 0 {
                return Err(EngineFault::Suspended);
            }
            left -= 1;
            self.wait(host)?;
            self.settle(host)?;
        }
    }

    /// Adds turns until it is settled.
    fn settle<H: Host>(&mut self, host: &mut H) -> Result<(), EngineFault>
        requires open { is_closed self.old ≡ false }
        requires kept { Told (H.world host.old) (Holds self.old (H.world host.old)) }
        ensures holds { OnOk result (Told (H.world host.old) (Holds self.new (H.world host.new))) }
        ensures adds { InTheOutside (λ O. Told (H.world host.old)
            (OnOk result (AddsTurns the_language O (memory self.old) (memory self.new)
            (H.world host.old) (H.world host.new)))) }
        ensures settled { OnOk result (IsSettled (memory self.new)) }
        ensures any_moment { InTheOutside (λ O. Told (H.world host.old)
            (KeptThroughout the_language O (memory self.old) (H.world host.old)
            (H.world host.new))) }
        ensures finished { IsSettled (memory self.old)
            → (self.new ≡ self.old) × (host.new ≡ host.old) }
        ensures session { (memory self.new).session ≡ (memory self.old).session }
        ensures waits { (memory self.new).waits ≡ (memory self.old).waits }
        ensures disk_fault { IsErrOf result EngineFault.DiskFault
            → DiskFailed H.faults host.old host.new }
        ensures closes { OnErr result (is_closed self.new ≡ true) }
        ensures open { OnOk result (is_closed self.new ≡ false) }
        ensures only { OnlyErrors result (EngineFault.DiskFault ∷ EngineFault.OutOfMemory ∷ []) }
        ensures tells { TellsAsBefore H.world host.old host.new }
        ensures counts { NoCountFalls H.faults host.old host.new }
    {
        while !self.is_settled() {
            self.turn(host)?;
        }
        Ok(())
    }

    /// Sends what is open, and hears one thing, at most until the least due moment.
    fn wait<H: Host>(&mut self, host: &mut H) -> Result<(), EngineFault>
        requires open { is_closed self.old ≡ false }
        requires kept { Told (H.world host.old) (Holds self.old (H.world host.old)) }
        requires settled { IsSettled (memory self.old) }
        requires active { (memory self.old).config.outcome ≡ Active }
        requires room { (memory self.old).waits + 1 < 2 ^ 64 }
        ensures holds { OnOk result (Told (H.world host.old) (Holds self.new (H.world host.new))) }
        ensures waits { InTheOutside (λ O. Told (H.world host.old)
            (OnOk result (Waits the_language O (memory self.old) (memory self.new)
            (H.world host.old) (H.world host.new)))) }
        ensures any_moment { InTheOutside (λ O. Told (H.world host.old)
            (KeptWithin the_language O 1 (memory self.old) (H.world host.old)
            (H.world host.new))) }
        ensures session { (memory self.new).session ≡ (memory self.old).session }
        ensures one { OnOk result ((memory self.new).waits ≡ (memory self.old).waits + 1) }
        ensures poll_fault { IsErrOf result EngineFault.PollFault
            → Rose (H.faults host.old).poll (H.faults host.new).poll }
        ensures closes { OnErr result (is_closed self.new ≡ true) }
        ensures open { OnOk result (is_closed self.new ≡ false) }
        ensures only { OnlyErrors result (EngineFault.PollFault ∷ EngineFault.OutOfMemory ∷ []) }
        ensures tells { TellsAsBefore H.world host.old host.new }
        ensures counts { NoCountFalls H.faults host.old host.new }
    {
        // laws that the proof uses
        laws_of_steps();
        self.send_open(host)?;
        let Some(until) = self.machine.least_due() else {
            unreachable!();
        };
        // until it has heard
        self.closed = true;
        let heard = host.poll(until)?;
        self.closed = false;
        self.take(heard)?;
        Ok(())
    }
}
