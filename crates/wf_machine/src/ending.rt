// How an execution has ended.
ghost use Rattle.std.specs.Prelude.{◌≡◌, ◌≤◌, IfOk, IfSome, OnOk, Some, false, unwrap_or};
ghost use Rattle.wf_machine.specs.Entries.{entries_of};
ghost use Rattle.wf_machine.specs.Main.{calls_behind, is_forked, log_behind, logged_depth, outcome_at, outcome_behind};
ghost use Rattle.wf_moves.specs.Tasks.{told_in};
ghost use Rattle.wf_machine.specs.State.{is_running, outcome_by};
ghost use Rattle.wf_machine.specs.declared.ending.Ending.TheVariants.{Running};

use crate::log::Log;
use wf_calls::Calls;
use wf_moves::{Behind, End, Move, Told};
use wf_value::{OutOfMemory, Value};

/// How an execution has ended, if it has.
#[derive(Clone, Copy)]
pub enum Outcome<'a> {
    /// It hasn't.
    Active,
    /// With this value: that of a return, or null behind the last step.
    Returned(&'a Value),
    /// With this error, a map of its tags, code and message that nothing has caught.
    Raised(&'a Value),
}

/// How an execution has ended, with the value that it holds.
pub(crate) enum Ending {
    Running,
    Returned(Value),
    Raised(Value),
}

// Written, and not derived: it is one call wherever an ending is let go.
impl Drop for Ending {
    fn drop(self) {
        match self {
            Ending::Running | Ending::Returned(_) | Ending::Raised(_) => {}
        }
    }
}

impl Ending {
    /// Whether it is none.
    pub(crate) fn is_running(&self) -> bool
        ensures { result ≡ is_running self.now }
    {
        matches!(self, Ending::Running)
    }
}

/// How an execution has ended with `main`.
fn ending_by(end: End) -> Ending
    ensures outcome { outcome_by result ≡ outcome_at end }
    ensures ended { is_running result ≡ false }
{
    match end {
        End::Value(value) => Ending::Returned(value),
        End::Error(error) => Ending::Raised(error),
    }
}

/// How an execution has ended behind what `main` has done at a reading; none where it goes on. A parallel step is answered by want of memory:
/// the checker accepts none.
#[inline(always)]
pub(crate) fn ending_of(
    task: u32,
    did: Move,
    reading: u64,
    calls: &mut Calls,
    log: &mut Log,
) -> Result<Option<Ending>, OutOfMemory>
    requires shallow { logged_depth (told_in did) ≤ 100 }
    ensures outcome { IfOk result (λ e. outcome_by (unwrap_or e Running)
        ≡ outcome_behind (told_in did)) }
    ensures ended { IfOk result (λ e. IfSome e (λ e. is_running e ≡ false)) }
    ensures unforked { OnOk result (is_forked (told_in did) ≡ false) }
    ensures calls { OnOk result (calls.new ≡ calls_behind task (told_in did) calls.old) }
    ensures log { OnOk result (entries_of log.new
        ≡ log_behind reading (told_in did) (entries_of log.old)) }
{
    match did {
        Move::Went => Ok(None),
        Move::Told(told) => ending_behind(task, Box::into_inner(told), reading, calls, log),
    }
}

/// The same of one of the few moves of which there is something to tell. A request that was made is one more call, and a value that was
/// logged one more entry.
#[cold]
#[inline(never)]
fn ending_behind(
    task: u32,
    told: Told,
    reading: u64,
    calls: &mut Calls,
    log: &mut Log,
) -> Result<Option<Ending>, OutOfMemory>
    requires shallow { logged_depth (Some told) ≤ 100 }
    ensures outcome { IfOk result (λ e. outcome_by (unwrap_or e Running)
        ≡ outcome_behind (Some told)) }
    ensures ended { IfOk result (λ e. IfSome e (λ e. is_running e ≡ false)) }
    ensures unforked { OnOk result (is_forked (Some told) ≡ false) }
    ensures calls { OnOk result (calls.new ≡ calls_behind task (Some told) calls.old) }
    ensures log { OnOk result (entries_of log.new
        ≡ log_behind reading (Some told) (entries_of log.old)) }
{
    match told {
        Told::Ended(end) => Ok(Some(ending_by(end))),
        Told::Sent(sent) => {
            let sent = Box::into_inner(sent);
            calls.send(task, sent.request, sent.due)?;
            Ok(None)
        }
        Told::Logged(logged, behind) => {
            log.add(Box::into_inner(logged), reading)?;
            match behind {
                Behind::Goes => Ok(None),
                Behind::Ended(end) => Ok(Some(ending_by(end))),
            }
        }
        Told::Forked(_) => Err(OutOfMemory),
    }
}
