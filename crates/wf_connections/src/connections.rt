// The calls that a session has started.
ghost use Rattle.wf_connections.specs.Lines.{AreRead};

use crate::line::{Line, State};
use crate::lines::{call_of, reach};
use crate::reply::answer_of;
use std::alloc::Global;
use wf_host::What;
use wf_http_in::answers_are_small;
use wf_record_parts::Reply;
use wf_value::OutOfMemory;

/// The calls that a session has started, by their numbers: whether each was dropped, and what was heard of it.
///
/// What was heard of a call is read as an answer while it `listens`: from its start until it is dropped or forgotten. Of an answer
/// that is read its head and its body are kept, and nothing once it isn't wanted any more. A call costs the same time whatever its
/// number, but a number takes room for all below it, two words each.
#[derive(Drop)]
pub struct Connections {
    lines: Vec<Line>,
    ghost read: { ∥ AreRead lines.items ∥₁ },
}

impl Connections {
    ghost use Rattle.std.specs.Prelude.{◌≡◌, ◌≤◌, ℕ, true, false, length, option_map, IfOk, IfSome, OnOk};
    ghost use Rattle.wf_connections.specs.Calls.{Drops, Forgets, Hears, IsFresh, Starts, StandsAsBefore, is_dropped, is_started, listens, told};
    ghost use Rattle.wf_deeds.specs.Deeds.{IsAnswered};
    ghost use Rattle.wf_record_parts.specs.Spelling.{IsReply, reply};
    ghost use Rattle.wf_record_parts.specs.View.{reply_view};

    /// No call was started.
    pub fn new(alloc: Global) -> Connections
        ensures { IsFresh result }
    {
        Connections {
            lines: Vec::new(alloc),
        }
    }

    /// Whether the call of this number was started.
    pub fn is_started(&self, call: u64) -> bool
        ensures { result ≡ is_started self.now call }
    {
        match self.lines.get(call as usize) {
            Some(line) => line.is_used(),
            None => false,
        }
    }

    /// Whether it was dropped.
    pub fn is_dropped(&self, call: u64) -> bool
        ensures { result ≡ is_dropped self.now call }
    {
        match self.lines.get(call as usize) {
            Some(line) => line.is_dropped(),
            None => false,
        }
    }

    /// The call of this number is started: nothing was heard of it, and it listens. Without memory the calls may only be let go.
    pub fn start(&mut self, alloc: Global, call: u64) -> Result<(), OutOfMemory>
        requires { is_started self.old call ≡ false }
        ensures { OnOk result (Starts self.old self.new call) }
    {
        let i = call as usize;
        let line = Line::new(alloc)?;
        reach(&mut self.lines, i)?;
        self.lines[i] = line;
        Ok(())
    }

    /// A call that was started is dropped, so what is heard of it isn't wanted any more.
    pub fn drop_call(&mut self, call: u64)
        requires { is_started self.old call ≡ true }
        ensures { Drops self.old self.new call }
    {
        let line = &mut self.lines[call as usize];
        line.drop_call();
    }

    /// What is heard of a call isn't wanted any more.
    pub fn forget(&mut self, call: u64)
        ensures { Forgets self.old self.new call }
    {
        let i = call as usize;
        if i < self.lines.len() {
            let line = &mut self.lines[i];
            line.forget();
        }
    }

    /// Hears what a poll heard, where that is of a call.
    pub fn hear(&mut self, what: &What) -> Result<(), OutOfMemory>
        ensures heard { OnOk result (Hears self.old self.new what.now) }
        ensures stands { StandsAsBefore self.old self.new }
    {
        let Some(call) = call_of(what) else {
            return Ok(());
        };
        let i = call as usize;
        if i >= self.lines.len() {
            return Ok(());
        }
        let line = &mut self.lines[i];
        line.hear(what)
    }

    /// The answer to a call that listens, of all that was heard of it: none while more may have to come. It has a spelling in a
    /// record, of at most 2,200,000 bytes.
    pub fn answer(&self, alloc: Global, call: u64) -> Result<Option<Reply>, OutOfMemory>
        requires { listens self.now call ≡ true }
        ensures answered { IfOk result (λ a.
            IsAnswered (told self.now call) (option_map reply_view a)) }
        ensures spelled { IfOk result (λ a. IfSome a (λ r. IsReply (reply_view r))) }
        ensures short { IfOk result (λ a.
            IfSome a (λ r. length (reply (reply_view r)) ≤ 2200000)) }
    {
        // laws that the proof uses
        answers_are_small();
        let line = &self.lines[call as usize];
        match &line.state {
            State::Heard(reading) => answer_of(alloc, reading),
            State::Unused | State::Forgotten | State::Dropped => unreachable!(),
        }
    }
}
