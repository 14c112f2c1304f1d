// The callback endpoints of an execution.
ghost use Rattle.std.specs.Option.{SomeIff};
ghost use Rattle.std.specs.Prelude.{◌≡◌, ◌<◌, ◌≤◌, ◌-◌, ◌+◌, ◌∷◌, [], ◌++◌, IfOk, OnErr, OnOk, length, option_map};
ghost use Rattle.wf_callbacks.specs.Plain.{plain_method, plain_visitor, told};
ghost use Rattle.wf_callbacks.specs.Turns.{fresh, oldest, taken};
ghost use Rattle.wf_value.specs.Queues.{arrive_fault, arrived, queue_of};

use crate::endpoint::Endpoint;
use crate::{ArriveFault, Method, Visitor};
use std::alloc::Global;
use std::marker::Model;
use wf_value::OutOfMemory;

/// The callback endpoints of an execution, numbered from 1 on. Each has a method and a queue of the requests that came and that nobody
/// has taken. Contracts see them as a list of endpoints, each queue with its oldest request first.
#[derive(Drop)]
pub struct Endpoints {
    endpoints: Vec<Endpoint>,
}

impl Model for Endpoints {
    ghost use Rattle.std.specs.Prelude.{List};
    ghost use Rattle.wf_value.specs.Queues.{Endpoint as Plain};

    ghost Value = { List Plain };

    ghost view = { λ a. a.endpoints.items };
}

impl Endpoints {
    /// No endpoints.
    pub fn new(alloc: Global) -> Result<Endpoints, OutOfMemory>
        ensures { IfOk result (λ es. es ≡ []) }
    {
        Ok(Endpoints {
            endpoints: Vec::new(alloc),
        })
    }

    /// Makes an endpoint for this method, and gives its number. Without memory the endpoints stay as they are.
    pub fn create(&mut self, method: Method) -> Result<u64, OutOfMemory>
        ensures number { IfOk result (λ n. n ≡ length self.old + 1) }
        ensures made { OnOk result (self.new ≡ self.old ++ fresh (plain_method method) ∷ []) }
        ensures kept { OnErr result (self.new ≡ self.old) }
    {
        let alloc = *self.endpoints.allocator();
        self.endpoints.push(Endpoint::new(alloc, method))?;
        Ok(self.endpoints.len() as u64)
    }

    /// Puts a request at the end of the queue of endpoint `n`, where `bytes_left` bytes are left for bodies. On a fault the endpoints
    /// stay as they are, and the request is dropped.
    ///
    /// The first of these causes that holds is told: `Unknown` where there is no endpoint `n`, `WrongMethod` where it has another
    /// method, `QueueFull` where 100 requests wait there or the body is longer than `bytes_left`. Besides, memory may be wanting.
    pub fn arrive(&mut self, n: u64, visitor: Visitor, bytes_left: u64) -> Result<(), ArriveFault>
        ensures fault { told result ≡ arrive_fault self.old n (plain_visitor visitor) bytes_left }
        ensures joined { OnOk result (self.new ≡ arrived self.old n (plain_visitor visitor)) }
        ensures kept { OnErr result (self.new ≡ self.old) }
    {
        let Some(i) = place(n, self.endpoints.len()) else {
            return Err(ArriveFault::Unknown);
        };
        let endpoint = &mut self.endpoints[i];
        endpoint.arrive(visitor, bytes_left)
    }

    /// Takes the oldest request out of the queue of endpoint `n`: none where there is no endpoint `n` or its queue is empty.
    pub fn take(&mut self, n: u64) -> Option<Visitor>
        ensures visitor { option_map plain_visitor result ≡ oldest (queue_of self.old n) }
        ensures rest { self.new ≡ taken self.old n }
    {
        let Some(i) = place(n, self.endpoints.len()) else {
            return None;
        };
        let endpoint = &mut self.endpoints[i];
        endpoint.take()
    }
}

/// Where endpoint `n` stands, among so many.
fn place(n: u64, count: usize) -> Option<usize>
    ensures { SomeIff result ((0 < n) × (n ≤ count)) (n - 1) }
{
    if 0 < n && n <= count as u64 {
        Some((n - 1) as usize)
    } else {
        None
    }
}
