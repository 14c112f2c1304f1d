// One endpoint and its queue.
ghost use Rattle.std.specs.Prelude.{◌≡◌, Some, OnErr, OnOk, option_map};
ghost use Rattle.wf_callbacks.specs.Plain.{plain_method, plain_visitor, told};
ghost use Rattle.wf_callbacks.specs.Turns.{fresh, joined, oldest, shortened};
ghost use Rattle.wf_value.specs.Queues.{fault_at};

use crate::{ArriveFault, Method, Visitor};
use std::alloc::Global;
use std::collections::VecDeque;
use std::marker::Model;

/// How many requests may wait in one queue.
const QUEUE_LIMIT: usize = 100;

/// An endpoint: its method, and the requests that wait, the oldest first.
#[derive(Drop)]
pub(crate) struct Endpoint {
    method: Method,
    queue: VecDeque<Visitor>,
}

impl Model for Endpoint {
    ghost use Rattle.wf_value.specs.Queues.{Endpoint as Plain};

    ghost Value = { Plain };

    ghost use Rattle.wf_callbacks.specs.Plain.{plain_endpoint};

    ghost view = { λ e. plain_endpoint e.method e.queue.items };
}

impl Endpoint {
    /// An endpoint where nothing waits.
    pub(crate) fn new(alloc: Global, method: Method) -> Endpoint
        ensures { result ≡ fresh (plain_method method) }
    {
        Endpoint {
            method,
            queue: VecDeque::new(alloc),
        }
    }

    /// Puts a request at the end of the queue.
    pub(crate) fn arrive(&mut self, visitor: Visitor, bytes_left: u64) -> Result<(), ArriveFault>
        ensures fault { told result ≡ fault_at (Some self.old) (plain_visitor visitor) bytes_left }
        ensures joined { OnOk result (self.new ≡ joined self.old (plain_visitor visitor)) }
        ensures kept { OnErr result (self.new ≡ self.old) }
    {
        if visitor.method != self.method {
            return Err(ArriveFault::WrongMethod);
        }
        if self.queue.len() >= QUEUE_LIMIT || visitor.body.as_slice().len() as u64 > bytes_left {
            return Err(ArriveFault::QueueFull);
        }
        match self.queue.push_back(visitor) {
            Ok(()) => Ok(()),
            Err(_) => Err(ArriveFault::OutOfMemory),
        }
    }

    /// Takes the oldest request out of the queue.
    pub(crate) fn take(&mut self) -> Option<Visitor>
        ensures visitor { option_map plain_visitor result ≡ oldest self.old.queue }
        ensures rest { self.new ≡ shortened self.old }
    {
        self.queue.pop_front()
    }
}
