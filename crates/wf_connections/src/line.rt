// The line to one call.
ghost use Rattle.std.specs.Prelude.{◌≡◌, ◌∷◌, [], ◌++◌, ℕ, true, false, if◌then◌else◌, is_ok, IfOk, Some};
ghost use Rattle.wf_connections.specs.Lines.{HasRead, IsRead, adds, is_dropped, is_heard, is_used};
ghost use Rattle.wf_deeds.specs.Deeds.{Told, tells};
ghost use Rattle.wf_host.specs.World.{call_of};

use http_server::Log;
use std::alloc::Global;
use wf_host::What;
use wf_http_in::Reading;
use wf_value::OutOfMemory;

/// How a line stands.
#[derive(Drop)]
pub(crate) enum State {
    // Its call wasn't started.
    Unused,
    // It was, and what is heard of it is read.
    Heard(Box<Reading>),
    // It was, and what is heard of it isn't wanted any more.
    Forgotten,
    // It was, and it was dropped.
    Dropped,
}

/// The line to a call, with all that was heard of it, which only proofs read.
#[derive(Drop)]
pub(crate) struct Line {
    pub(crate) state: State,
    pub(crate) heard: Log<What, ()>,
}

impl Line {
    /// The line to a call that wasn't started.
    pub(crate) fn unused() -> Line
        ensures used { is_used result.state ≡ false }
        ensures dropped { is_dropped result.state ≡ false }
        ensures listens { is_heard result.state ≡ false }
        ensures heard { result.heard.items ≡ [] }
    {
        Line {
            state: State::Unused,
            heard: Log::new(),
        }
    }

    /// The line to a call that was started, and of which nothing was heard.
    pub(crate) fn new(alloc: Global) -> Result<Line, OutOfMemory>
        ensures used { IfOk result (λ l. is_used l.state ≡ true) }
        ensures dropped { IfOk result (λ l. is_dropped l.state ≡ false) }
        ensures listens { IfOk result (λ l. is_heard l.state ≡ true) }
        ensures heard { IfOk result (λ l. l.heard.items ≡ []) }
        ensures read { IfOk result (λ l. (k : ℕ) → IsRead k l) }
    {
        let reading = Box::new(alloc, Reading::new(alloc))?;
        Ok(Line {
            state: State::Heard(reading),
            heard: Log::new(),
        })
    }

    /// Whether its call was started.
    pub(crate) fn is_used(&self) -> bool
        ensures { result ≡ is_used self.now.state }
    {
        !matches!(self.state, State::Unused)
    }

    /// Whether its call was dropped.
    pub(crate) fn is_dropped(&self) -> bool
        ensures { result ≡ is_dropped self.now.state }
    {
        matches!(self.state, State::Dropped)
    }

    /// What is heard isn't wanted any more, since the call was dropped.
    pub(crate) fn drop_call(&mut self)
        ensures used { is_used self.new.state ≡ true }
        ensures dropped { is_dropped self.new.state ≡ true }
        ensures listens { is_heard self.new.state ≡ false }
        ensures heard { self.new.heard.items ≡ self.old.heard.items }
    {
        self.state = State::Dropped;
    }

    /// What is heard isn't wanted any more.
    pub(crate) fn forget(&mut self)
        ensures used { is_used self.new.state ≡ is_used self.old.state }
        ensures dropped { is_dropped self.new.state ≡ is_dropped self.old.state }
        ensures listens { is_heard self.new.state ≡ false }
        ensures heard { self.new.heard.items ≡ self.old.heard.items }
    {
        if matches!(self.state, State::Heard(_)) {
            self.state = State::Forgotten;
        }
    }

    /// Hears this of its call.
    pub(crate) fn hear(&mut self, what: &What) -> Result<(), OutOfMemory>
        ensures used { is_used self.new.state ≡ is_used self.old.state }
        ensures dropped { is_dropped self.new.state ≡ is_dropped self.old.state }
        ensures listens { is_heard self.new.state ≡ is_heard self.old.state }
        ensures heard { self.new.heard.items ≡ adds result what.now self.old.heard.items }
        ensures read { (k : ℕ) → call_of what.now ≡ Some k → IsRead k self.old
            → IsRead k self.new }
    {
        if let State::Heard(reading) = &mut self.state {
            read(reading, what)?;
        }
        self.heard = self.heard.and(what, &());
        Ok(())
    }
}

/// Reads this of a call. Without memory nothing was read.
fn read(reading: &mut Reading, what: &What) -> Result<(), OutOfMemory>
    ensures { (k : ℕ) (t : Told) → call_of what.now ≡ Some k → HasRead reading.old t
        → HasRead reading.new (if is_ok result then tells k what.now t else t) }
{
    match what {
        What::Bytes(_, bytes) => reading.feed(bytes.as_slice()),
        What::End(_) => {
            reading.end();
            Ok(())
        }
        What::Broken(_) => {
            reading.broke();
            Ok(())
        }
        What::Nothing | What::Visit(_, _) | What::VisitEnd(_) => Ok(()),
    }
}
