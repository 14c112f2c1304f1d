// The calls of an execution.
ghost use Rattle.std.specs.Option.{option_copied};
ghost use Rattle.std.specs.Prelude.{◌≡◌, ◌↔◌, ◌<◌, ◌+◌, ◌^◌, [], ◌∷◌, ◌++◌, IfNone, IfSome, IsTrue, OnErr, OnOk, length, option_map, unwrap_or};
ghost use Rattle.wf_calls.specs.NextOpen.{IsNextOpen, NoneOpen, next_open};
ghost use Rattle.wf_calls.specs.Numbers.{call_in, call_task, closed_at};
ghost use Rattle.wf_calls.specs.View.{closed_view};
ghost use Rattle.wf_http_ask.specs.View.{request_view};
ghost use Rattle.wf_model.specs.Config.{Answered, Open, TimedOut};
ghost use Rattle.wf_model.specs.Ready.{call_due, request_in};

use crate::Closed;
use crate::call::Call;
use std::alloc::Global;
use std::marker::Model;
use wf_http_ask::Request;
use wf_value::OutOfMemory;

/// The calls of an execution in the order in which they were sent, numbered from 1 on. An open call has the task that waits for its
/// answer, its request, and its due moment in milliseconds since 1970; a closed one only how it was closed. Contracts see them as the
/// list of the meaning.
#[derive(Drop)]
pub struct Calls {
    calls: Vec<Call>,
}

impl Model for Calls {
    ghost use Rattle.std.specs.Prelude.{List};
    ghost use Rattle.wf_model.specs.Config.{Call as Plain};

    ghost Value = { List Plain };

    ghost view = { λ a. a.calls.items };
}

impl Calls {
    /// No calls.
    pub fn new(alloc: Global) -> Calls
        ensures { result ≡ [] }
    {
        Calls {
            calls: Vec::new(alloc),
        }
    }

    /// How many there are, open and closed. It is the number of the last one.
    pub fn count(&self) -> u64
        ensures count { result ≡ length self.now }
        ensures next_fits { result + 1 < 2 ^ 64 }
    {
        self.calls.len() as u64
    }

    /// Adds an open call at the end, whose number is the count then. Without memory the calls stay as they are, and the request is
    /// dropped.
    pub fn send(&mut self, task: u32, request: Request, due: u64) -> Result<(), OutOfMemory>
        ensures sent { OnOk result
            (self.new ≡ self.old ++ Open task (request_view request) due ∷ []) }
        ensures kept { OnErr result (self.new ≡ self.old) }
    {
        self.calls.push(Call::open(task, request, due))?;
        Ok(())
    }

    /// Closes call `number`, and lets its request go. Where there is no such call nothing changes.
    pub fn close(&mut self, number: u64, how: Closed)
        ensures { self.new ≡ closed_at self.old number (closed_view how) }
    {
        if 0 < number && number <= self.calls.len() as u64 {
            self.calls[(number - 1) as usize] = Call::closed(how);
        }
    }

    /// The task that waits for the answer of call `number`; none where no open call has this number.
    pub fn task(&self, number: u64) -> Option<u32>
        ensures { result ≡ call_task (call_in self.now number) }
    {
        self.find(number)?.task()
    }

    /// The due moment of call `number`, in milliseconds since 1970; none where no open call has this number.
    pub fn due(&self, number: u64) -> Option<u64>
        ensures { result ≡ call_due (call_in self.now number) }
    {
        self.find(number)?.due()
    }

    /// The request of call `number`; none where no open call has this number.
    pub fn request(&self, number: u64) -> Option<&Request>
        ensures { option_map request_view (option_copied result)
            ≡ request_in (call_in self.now number) }
    {
        self.find(number)?.request()
    }

    /// Whether call `number` was closed since its due moment came first.
    pub fn has_timed_out(&self, number: u64) -> bool
        ensures { IsTrue result ↔ (call_in self.now number ≡ TimedOut) }
    {
        match self.find(number) {
            Some(call) => call.has_timed_out(),
            None => false,
        }
    }

    /// The least number above `after` of an open call; none where there is none.
    pub fn next_open(&self, after: u64) -> Option<u64>
        ensures number { result ≡ next_open self.now after }
        ensures least { IfSome result (IsNextOpen self.now after) }
        ensures none { IfNone result (NoneOpen self.now after) }
    {
        for place in after as usize..self.calls.len() {
            if self.calls[place].is_open() {
                return Some(place as u64 + 1);
            }
        }
        None
    }

    /// The call of this number.
    fn find(&self, number: u64) -> Option<&Call>
        ensures { unwrap_or (option_copied result) Answered ≡ call_in self.now number }
    {
        let place = number.checked_sub(1)?;
        self.calls.get(place as usize)
    }
}
