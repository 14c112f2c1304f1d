// What is heard.
ghost use Rattle.std.specs.Prelude.{◌≡◌};
ghost use Rattle.wf_host.specs.World.{call_of};

use crate::engine::Engine;
use crate::taken::Taken;
use wf_deeds::laws_of_steps;
use wf_host::{Heard, What};
use wf_replay::EngineFault;
use wf_value::OutOfMemory;

impl Engine {
    ghost use Rattle.std.specs.Prelude.{◌≡◌, ◌+◌, ◌<◌, ◌^◌, ℕ, None, is_some, true, false, IfOk};
    ghost use Rattle.wf_connections.specs.Calls.{is_started, listens};
    ghost use Rattle.wf_host.specs.World.{visit_of};
    ghost use Rattle.wf_deeds.specs.Memory.{IsSettled};
    ghost use Rattle.wf_engine.specs.Engine.{is_closed, memory};
    ghost use Rattle.wf_engine.specs.Promises.{TakesWhatIsHeard};
    ghost use Rattle.wf_engine.specs.Hearing.{Finds};
    ghost use Rattle.wf_model.specs.Config.{Active};
    ghost use Rattle.wf_model.specs.Ready.{request_of};

    /// Hears what a poll has heard, or what was handed over in its place. An answer that it makes whole waits for the next turn.
    ///
    /// The error is `OutOfMemory`, and the engine is closed then; or `Closed` exactly where an earlier call has failed.
    pub fn take(&mut self, heard: Heard) -> Result<(), EngineFault>
        requires settled { is_closed self.old ≡ false → IsSettled (memory self.old) }
        requires active { is_closed self.old ≡ false
            → (memory self.old).config.outcome ≡ Active }
        requires room { (memory self.old).waits + 1 < 2 ^ 64 }
        // No visit is heard yet.
        requires of_calls { visit_of heard.what ≡ None }
        ensures { TakesWhatIsHeard self.old self.new heard result }
    {
        if self.closed {
            return Err(EngineFault::Closed);
        }
        // laws that the proof uses
        laws_of_steps();
        // until it is heard
        self.closed = true;
        self.connections.hear(&heard.what)?;
        self.taken = self.answer_to(&heard.what)?;
        self.reading = self.reading.max(heard.reading);
        self.waits += 1;
        self.closed = false;
        Ok(())
    }

    /// The answer to an open call that was started, where this has made it whole.
    fn answer_to(&self, what: &What) -> Result<Option<Taken>, OutOfMemory>
        requires listens { (k : ℕ) → is_some (request_of (memory self.now).config k) ≡ true
            → is_started self.now.connections k ≡ true → listens self.now.connections k ≡ true }
        ensures { IfOk result (λ taken. Finds (memory self.now) what.now taken) }
    {
        let Some(call) = call_of(what) else {
            return Ok(None);
        };
        if self.machine.request(call).is_none() || !self.connections.is_started(call) {
            return Ok(None);
        }
        match self.connections.answer(self.alloc, call)? {
            Some(reply) => {
                let reply = Box::new(self.alloc, reply)?;
                Ok(Some(Taken { call, reply }))
            }
            None => Ok(None),
        }
    }
}

/// The call of which something was heard.
fn call_of(what: &What) -> Option<u64>
    ensures { result ≡ call_of what.now }
{
    match what {
        What::Bytes(call, _) | What::End(call) | What::Broken(call) => Some(*call),
        What::Nothing | What::Visit(_, _) | What::VisitEnd(_) => None,
    }
}
