// The requests of calls of HTTP.
ghost use Rattle.std.specs.Prelude.{◌≤◌, IfOk, OnOk};
ghost use Rattle.wf_eval.specs.Answers.{Answers};
ghost use Rattle.wf_frames.specs.Owned.{Around, control_of, held_by};
ghost use Rattle.wf_frames.specs.Stands.{Stands};
ghost use Rattle.wf_moves.specs.Requests.{request_by, sent_view};
ghost use Rattle.wf_moves.specs.Tasks.{DoesBy, IsLeftSo, Names};
ghost use Rattle.wf_model.specs.Spots.{part_at, part_body};
ghost use Rattle.wf_frames.specs.Built.{IsHttp, IsTableOf};
ghost use Rattle.wf_frames.specs.Steps.{asks_with};
ghost use Rattle.wf_value.specs.Data.{pairs_depth, pairs_of};

use crate::finish::{Awaits, Done, done_of};
use crate::raising::fails;
use crate::wait::Wait;
use std::alloc::Global;
use wf_ast::boxed;
use wf_callbacks::Method;
use wf_frames::{Facts, Frames};
use wf_host::Routes;
use wf_http_ask::{Request, asked_of, request_of};
use wf_model::Node;
use wf_scope::Scopes;
use wf_sys_ask::due_of;
use wf_value::{Map, OutOfMemory, Raise};

/// What a step does outside depends on beside the facts of its execution: where URLs lead, how many calls were made before, and the size
/// of all values that were logged.
pub struct Sending {
    pub routes: Routes,
    pub calls: u64,
    pub logged: u64,
}

// Written, and not derived: it is one call wherever it is let go.
impl Drop for Sending {
    fn drop(self) {
        let Sending {
            routes: _,
            calls: _,
            logged: _,
        } = self;
    }
}

/// A request that a task has made, and the moment at which it stops waiting for the answer, in milliseconds since 1970.
#[derive(Drop)]
pub struct Sent {
    pub request: Request,
    pub due: u64,
}

/// The request for which the arguments of a call ask, which gets this number.
fn sent_of(
    alloc: Global,
    method: Option<Method>,
    args: &Map,
    facts: &Facts,
    routes: &Routes,
    number: u64,
) -> Result<Sent, Raise>
    requires { pairs_depth (pairs_of args.now) ≤ 100 }
    ensures { Answers sent_view result (request_by method (pairs_of args.now) facts.entry.now
        routes.now number) }
{
    let asked = asked_of(alloc, method, args)?;
    let request = request_of(alloc, routes, &asked, facts.id.as_str(), number)?;
    let due = due_of(facts.now, asked.timeout);
    Ok(Sent { request, due })
}

/// The request of a step's call, with its arguments. An error in them is raised, and nothing is sent.
pub(crate) fn sends(
    alloc: Global,
    nodes: &[Node],
    n: u32,
    method: Option<Method>,
    args: &Map,
    frames: &mut Frames,
    scopes: &mut Scopes,
    facts: &Facts,
    sending: &Sending,
) -> Result<Done, OutOfMemory>
    ghost around: { Around }
    requires tells { IsTableOf around.spots nodes.now }
    requires stands { Stands around nodes.now frames.old scopes.old }
    requires names { Names nodes.now n (IsHttp around.flows method) }
    requires shallow { pairs_depth (pairs_of args.now) ≤ 100 }
    ensures moved { IfOk result (λ d. DoesBy around facts.entry.now sending.now
        (λ s l. asks_with s (part_body (part_at around.spots n)) (pairs_of args.now)
        (control_of around frames.old) l)
        (held_by around frames.old scopes.old) d frames.new scopes.new) }
    ensures stands { OnOk result (Stands around nodes.now frames.new scopes.new) }
    ensures left { IfOk result (λ d. IsLeftSo nodes.now d frames.new) }
{
    // No execution makes so many calls.
    let Some(number) = sending.calls.checked_add(1) else {
        return Err(OutOfMemory);
    };
    match sent_of(alloc, method, args, facts, &sending.routes, number) {
        Ok(sent) => {
            let request = boxed(alloc, sent)?;
            let wait = Wait::Calling {
                call: number,
                node: n,
            };
            let awaits = boxed(alloc, Awaits::Sent(request, wait))?;
            Ok(Done::Awaits(awaits))
        }
        Err(raise) => Ok(done_of(fails(alloc, raise)?)),
    }
}
